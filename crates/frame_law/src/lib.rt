//! What the frame of a packet line means at a switch.
#![tactic(auto)]

ghost use Rattle.frame_law.specs.Laws.{KeyOfFrame};

/// The key of the frame of a packet line, at the port of the line, is the key of the line.
pub fn key_of_frame()
    ensures { KeyOfFrame }
{}
