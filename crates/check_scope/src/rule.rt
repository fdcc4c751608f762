//! The rules of typing by their numbers, which a note prints after `K`.

/// K1: a name is not known.
pub const UNKNOWN_NAME: u8 = 1;

/// K2: a name is taken.
pub const NAME_TAKEN: u8 = 2;

/// K3: a value has another type than stands there.
pub const WRONG_TYPE: u8 = 3;

/// K4: a value is used after it was moved.
pub const USED_AFTER_MOVE: u8 = 4;

/// K5: a held value is moved or changed.
pub const HELD_CHANGED: u8 = 5;

/// K6: a value is not classical.
pub const NOT_CLASSICAL: u8 = 6;

/// K7: a call is against the function's mark.
pub const AGAINST_MARK: u8 = 7;

/// K8: a run-time branch measures.
pub const MEASURED_IN_BRANCH: u8 = 8;

/// K9: what a condition holds is moved or changed.
pub const CONDITION_CHANGED: u8 = 9;

/// K10: a branch changes an outer variable.
pub const OUTER_CHANGED: u8 = 10;

/// K11: a Linear value is left.
pub const LINEAR_LEFT: u8 = 11;

/// K12: a value can't be dropped.
pub const NOT_DROPPABLE: u8 = 12;

/// K13: a forget gives another value than it forgets.
pub const BAD_FORGET: u8 = 13;

/// K14: a return is misplaced, or is missing.
pub const BAD_RETURN: u8 = 14;

/// K15: an expression has another number of values than stands there.
pub const RESULT_COUNT: u8 = 15;

/// K16: an update is not of this form.
pub const BAD_UPDATE: u8 = 16;

/// K17: a part is not there, or is not free.
pub const BAD_PART: u8 = 17;

/// K18: a size is out of range.
pub const BAD_SIZE: u8 = 18;

/// K19: a number is outside its type.
pub const OUTSIDE_TYPE: u8 = 19;

/// K20: a lifted function has no result.
pub const LIFTED_WITHOUT_RESULT: u8 = 20;

/// K21: an expression is not static.
pub const NOT_STATIC: u8 = 21;

/// K22: a value is consumed twice.
pub const CONSUMED_TWICE: u8 = 22;

/// K23: a value is consumed and held.
pub const CONSUMED_AND_HELD: u8 = 23;
