// The kinds of records, which text and bytes share.

pub use trace::kind::Kind;
