use versions::version::Version;

// A post before its put: the version to put, and the number of its causes.
#[derive(Clone, Copy)]
pub struct Draft {
    pub version: Version,
    pub causes: u32,
}
