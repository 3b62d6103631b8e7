use mh_values::LeafId;

/// The leaves that all handles here are made of.
pub const MANIFEST: &[u8] = b"class demo/Host java/lang/Object
static demo/Host add (II)I iadd
static demo/Host sub (II)I isub
static demo/Host div (II)I idiv
static demo/Host tick (I)I tick
static demo/Host same (I)I same
static demo/Host nothing ()V note
static demo/Host less (II)Z ilt
static demo/Host saw (Ljava/lang/RuntimeException;I)I tick
static demo/Host arr ([I)[I same
static demo/Host zin (ZI)I tick
static demo/Host fail (II)Z throw:java/lang/RuntimeException
static demo/Host text (Ljava/lang/String;)Ljava/lang/String; same
static demo/Host fin (Ljava/lang/Throwable;I)I tick
";

/// The sum of two ints.
pub const ADD: LeafId = LeafId(0);

/// The difference of two ints.
pub const SUB: LeafId = LeafId(1);

/// The quotient of two ints.
pub const DIV: LeafId = LeafId(2);

/// The number of leaf calls that were made before.
pub const TICK: LeafId = LeafId(3);

/// The one int that it takes.
pub const SAME: LeafId = LeafId(4);

/// Takes nothing and gives nothing.
pub const NOTHING: LeafId = LeafId(5);

/// Whether the first of two ints is less than the second.
pub const LESS: LeafId = LeafId(6);

/// The number of leaf calls that were made before, of an exception and an int.
pub const SAW: LeafId = LeafId(7);

/// The one array of ints that it takes.
pub const ARR: LeafId = LeafId(8);

/// The number of leaf calls that were made before, of a boolean and an int.
pub const ZIN: LeafId = LeafId(9);

/// Throws a `RuntimeException`.
pub const FAIL: LeafId = LeafId(10);

/// The one text that it takes.
pub const TEXT: LeafId = LeafId(11);

/// The number of leaf calls that were made before, of an exception and a result.
pub const FIN: LeafId = LeafId(12);
