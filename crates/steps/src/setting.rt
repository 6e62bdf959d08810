// What no step changes (01, 'One step'; 02, A.2 and A.4).
use machine::Rules;

// The rules, and how many names are held.
#[derive(Clone, Copy)]
pub(crate) struct Setting {
    pub rules: Rules,
    pub held: u32,
}
