// What readers and writers of codes refuse with.

// No code stands at the front of the given bytes.
#[derive(Clone, Copy, PartialEq, Eq, Debug)]
pub struct NoCode;

// The code does not fit into the bytes from the given place on.
#[derive(Clone, Copy, PartialEq, Eq, Debug)]
pub struct NoRoom;
