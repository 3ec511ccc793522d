use crate::few::Few;
use crate::field::Field;

/// A tuple of one to four fields; the places that it does not use hold the number 0.
pub type Tuple = Few<Field>;
