// What holds of streams.
ghost use Rattle.of10_stream.specs.Laws.{AnyPieces, OneCut};

/// Whatever the pieces were, the messages that were given, and those that can still be given, are
/// those into which the pieces, joined, are cut, up to the first fault. A stream is cut in one way.
pub fn stream_laws()
    ensures pieces { AnyPieces }
    ensures one { OneCut }
{}
