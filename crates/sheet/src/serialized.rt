// The encoding formats.
pub use layout::serialized::Format;
