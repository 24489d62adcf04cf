//! What bodies hold more than one of.
use crate::body::Method;
use crate::value::Value;
use gem_value::Sequence;
use insertion_map::InsertionMap;
use texts::Text;

/// Values.
pub type Values = Sequence<Value>;

/// Bytes.
pub type ByteString = Sequence<u8>;

/// Values by keys that are values, in the order in which the keys were put. A key is found by its
/// hash.
pub type Dictionary = InsertionMap<Value, Value>;

/// Names.
pub type Names = Sequence<Text>;

/// Methods.
pub type Methods = Sequence<Method>;
