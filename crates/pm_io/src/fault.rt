/// What a call of the outside answers where it did not do what was asked.
#[derive(Clone, Copy, Debug, PartialEq, Eq)]
pub enum IoFault {
    Failed,
}
