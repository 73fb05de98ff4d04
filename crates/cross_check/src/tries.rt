// The cases: the library and the second implementation on the same input, every lent buffer compared whole.
pub(crate) mod fetches;
pub(crate) mod fixed;
pub(crate) mod given;
pub(crate) mod jobs;
pub(crate) mod lent;
pub(crate) mod library;
pub(crate) mod plans;
pub(crate) mod seeded;
