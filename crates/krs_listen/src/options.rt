ghost use Rattle.std.specs.Prelude.{◌<◌, ◌↔◌, ◌≡◌, ◌≤◌, IfSome, IsSome, string_bytes};

/// As many lanes as a desk may have.
const MOST_LANES: u32 = 256;

/// What the daemon is told by its words. It is made where words are read, and nowhere else.
#[derive(Drop)]
pub struct Options {
    path: String,
    pub lanes: u32,

    /// After how many connections it ends.
    pub accept: Option<u32>,
    pub ghost fit: { (0 < lanes) × (lanes ≤ 256) },
}

impl Options {
    /// The options, where a desk may have so many lanes.
    pub(crate) fn new(path: String, lanes: u32, accept: Option<u32>) -> Option<Options>
        ensures fits { IsSome result ↔ ((0 < lanes) × (lanes ≤ 256)) }
        ensures path { IfSome result (λ options. options.path ≡ path) }
        ensures lanes { IfSome result (λ options. options.lanes ≡ lanes) }
        ensures accept { IfSome result (λ options. options.accept ≡ accept) }
    {
        if lanes == 0 || lanes > MOST_LANES {
            return None;
        }
        Some(Options {
            path,
            lanes,
            accept,
        })
    }
    /// At which path clients connect.
    pub fn path(&self) -> &str
        ensures { result.now ≡ string_bytes self.now.path }
    {
        self.path.as_str()
    }
}
