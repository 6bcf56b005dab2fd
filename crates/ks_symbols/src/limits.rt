//! How much a reader takes.

/// The most bytes of a Kconfig, a `.config`, an auto.conf, a dependency file, a source, a command file or a
/// script: 64 MiB. A longer one is TooLarge.
pub const MAX_BYTES: usize = 67_108_864;
