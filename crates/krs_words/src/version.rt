/// The version of both programs. The C clients and the tests read it here.
pub const VERSION: &str = "0.1.0";
