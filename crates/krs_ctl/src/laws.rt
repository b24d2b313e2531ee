ghost use Rattle.krs_ctl.specs.Listing.{LinksAreListed, OthersAreShown};

/// What `rlist` shows of a key that may be read and described: the links of a keyring, the bytes of any other.
pub fn listed_keys()
    ensures rings { LinksAreListed }
    ensures others { OthersAreShown }
{}
