// The second implementation, by the words of documents 01 and 02 and with no thought for speed. Of the library it knows only
// the type Plan. A block is worked on as a whole, pass by pass, until nothing changes: each of its symbols is known, or not yet.
pub(crate) mod cycles;
pub(crate) mod fetches;
pub(crate) mod labels;
pub(crate) mod measures;
pub(crate) mod messages;
pub(crate) mod outcomes;
pub(crate) mod peeling;
pub(crate) mod plans;
pub(crate) mod refusing;
pub(crate) mod rows;
