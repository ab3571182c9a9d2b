// Numbers that are never taken for one another.

// An element, numbered from 0 in deck order.
#[derive(Clone, Copy, PartialEq, Eq)]
pub struct Element(pub usize);

// The model's root.
pub const ROOT: Element = Element(0);

#[derive(Clone, Copy, PartialEq, Eq)]
pub struct Name(pub u64);

// A type, numbered from 0 in deck order.
#[derive(Clone, Copy, PartialEq, Eq)]
pub struct TypeNumber(pub usize);

// A file, numbered from 0.
#[derive(Clone, Copy, PartialEq, Eq)]
pub struct FileNumber(pub u64);
