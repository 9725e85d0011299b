//! Versions of records.

/// The version of the records that rows of acts have: 1 in a store of layout 1, 2 in one of layout 2.
#[derive(Clone, Copy)]
pub(crate) enum Version {
    One,
    Two,
}
