ghost use Rattle.krs_notes.specs.Laws.{AreReadOneWay, EachIsSpelled, HasOneSpelling, NoneBeginsAnother};

/// Laws of the bytes: they are those that the header's fields and masks tell of, none begin another record's, and a
/// reader takes what a queue gave it apart in one way only.
pub fn bytes_tell_records_apart()
    ensures spelled { EachIsSpelled }
    ensures one_spelling { HasOneSpelling }
    ensures apart { NoneBeginsAnother }
    ensures lists { AreReadOneWay }
{}
