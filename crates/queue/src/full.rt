// Why an element is not put into a line: it has no room left.
#[derive(Clone, Copy, PartialEq, Eq, Debug)]
pub struct Full;
