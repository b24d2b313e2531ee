ghost use Rattle.krs_ring.specs.Laws.{GivesItsStream};

/// A law over any posts and takes of a ring: what was taken, followed by what waits, is the stream.
pub fn gives_its_stream()
    ensures { GivesItsStream }
{}
