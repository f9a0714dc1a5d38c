// `ti WORD`: the type info that a word stands for, TypeInfo::try_from.
use crate::writer::Out;
use crate::{digits, pattern};
use dlt::{Argument, TypeInfo, Value};
use wire::Reason;

// The answer to the words behind the kind.
pub fn answer(words: &[&[u8]], out: &mut Out) -> Option<()> {
    let [word] = words else {
        return None;
    };
    shown(digits::hex_word(word)?, out);
    Some(())
}

// A word that stands for no type info is reason 2.
fn shown(info: u32, out: &mut Out) {
    match TypeInfo::try_from(info) {
        Ok(t) => {
            let mut numbers = [0u64; 26];
            numbers::put_argument(&mut numbers, 0, 0, false, of_type(t));
            pattern::fill(out, b"0 $,#,#,#", &numbers, 5, b"");
        }
        Err(_) => out.hickup(Reason::TypeInfo),
    }
}

// An argument that has nothing but a type.
fn of_type(t: TypeInfo) -> Argument {
    Argument {
        type_info: t,
        name: None,
        unit: None,
        fixed_point: None,
        value: Value::Bool(0),
        start: 0,
        end: 0,
    }
}
