//! Where control never comes.

/// Two cases: of a single one the compiler wouldn't ask which it is.
#[derive(Drop, Clone, Copy)]
pub enum Case {
    One,
    Other,
}

/// Control never comes here, and the program relies on it: the compiler leaves an arm out that
/// takes an item where there is none. Of `unreachable!()`, which is proved as well, the program
/// keeps a trap, and what moves past a trap is copied once more (docs/PROVING.md, Measures).
#[macro_export]
macro_rules! never {
    () => {{
        let none: [$crate::reading::never::Case; 0] = [];
        match none[0] {
            $crate::reading::never::Case::One => unreachable!(),
            $crate::reading::never::Case::Other => unreachable!(),
        }
    }};
}
