// What tests claim. Where a claim fails the test ends.

/// What is claimed is so, or else the test tells the claim, or the text that is given with it, by `common::require` of its crate. A call of this takes the
/// prover a fifth of what `assert!` does, which writes its own text wherever it stands.
#[macro_export]
macro_rules! holds {
    ($rt:expr; $claim:expr) => {
        crate::common::require($rt, $claim, stringify!($claim))
    };
    ($rt:expr; $claim:expr, $text:expr) => {
        crate::common::require($rt, $claim, $text)
    };
}
