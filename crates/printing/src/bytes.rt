// The byte at a place of a printed form.
pub use forms::bytes::byte_at;
