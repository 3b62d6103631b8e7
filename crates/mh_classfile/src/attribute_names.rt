/// The code of a method (JVMS SE 17, 4.7.3).
pub const CODE: &[u8] = b"Code";

/// The bootstrap methods of a class (4.7.23).
pub const BOOTSTRAP_METHODS: &[u8] = b"BootstrapMethods";
