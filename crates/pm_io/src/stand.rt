/// How the last begin or read left the files.
#[derive(Clone, Copy, Debug, PartialEq, Eq)]
pub enum Stand {
    /// No file was begun yet.
    Fresh,
    /// The last file was begun and can be read.
    Open,
    /// There is no file of the name that was begun last.
    Absent,
    /// The last begin or read failed.
    Broken,
}
