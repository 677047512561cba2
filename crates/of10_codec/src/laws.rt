// What holds of spellings.
ghost use Rattle.of10_codec.specs.Laws.{OneMessage, NoPrefix, NoFault, Spells};

/// Bytes spell one message at most, and then have no fault; no spelling is a front of another.
pub fn codec_laws()
    ensures one { OneMessage }
    ensures prefix { NoPrefix }
    ensures fault { NoFault }
{}

/// What is written of a message spells it.
pub fn writing_laws()
    ensures written { Spells }
{}
