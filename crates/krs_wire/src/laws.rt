ghost use Rattle.krs_wire.specs.Encoding.{CutsAgree, EachCutIsEncoded, EachEncodingIsCut, EachStreamIsCut};

/// A frame that is cut is the frame of its ask, and the frame of an ask is cut as that ask.
pub fn one_encoding()
    ensures found { EachCutIsEncoded }
    ensures again { EachEncodingIsCut }
{}

/// Every stream is cut, and in one way.
pub fn one_cut()
    ensures exists { EachStreamIsCut }
    ensures unique { CutsAgree }
{}
