// Every leaf by number, with one shape of answer.
#![tactic(auto)]

pub mod reply;
pub mod starts;

ghost use Rattle.std.specs.Prelude.{◌≡◌, drop};
ghost use Rattle.leaf_call.specs.Replies.{leaf_reply};

use reply::Reply;

// The leaf of this number, read at a place of the symbol. The numbers are those that a caller in C gives.
pub fn call_leaf(leaf: u32, s: &[u8], at: usize) -> Reply
    ensures { result ≡ leaf_reply leaf (drop at s.now) }
{
    match leaf {
        0 => reply::of_found(scan::cursor::get(s, at)),
        1 => reply::of_found(scan::cursor::read_digit(s, at)),
        2 => reply::of_found(scan::cursor::read_hex_digit(s, at)),
        3 => reply::of_span(scan::name::read_string(s, at)),
        4 => reply::of_leaf(scan::number::read_number(s, at)),
        5 => reply::of_leaf(scan::number::read_unsigned(s, at)),
        6 => reply::of_leaf(scan::number::read_guard_number(s, at)),
        7 => reply::of_span(scan::name::read_md5_name(s, at)),
        8 => reply::of_count(scan::name::read_hex_digits(s, at)),
        9 => reply::of_leaf(strings::encoded::read_character(s, at)),
        10 => reply::of_encoded(strings::encoded::read_encoded_string(s, at, 1)),
        11 => reply::of_encoded(strings::encoded::read_encoded_string(s, at, 2)),
        12 => reply::of_leaf(letters::read_calling_conv(s, at)),
        13 => reply::of_leaf(letters::read_func_class(s, at)),
        14 => reply::of_class(letters::read_storage_class(s, at)),
        15 => reply::of_class(letters::read_qualifier(s, at)),
        16 => reply::of_leaf(letters::read_storage_class_for_return(s, at)),
        17 => reply::of_class(letters::read_func_qualifiers(s, at)),
        18 => reply::of_leaf(letters::read_string_width(s, at)),
        19 => reply::of_leaf(operators::read_operator(s, at)),
        20 => reply::of_leaf(letters::read_guard_marker(s, at)),
        21 => starts::of_start(forms::types::type_start(s, at)),
        22 => starts::of_reference(forms::types::type_reference(s, at)),
        23 => starts::of_start(forms::begins::name_start(s, at)),
        24 => starts::of_start(forms::begins::parse_start(s, at)),
        25 => starts::of_start(forms::begins::symbol_start(s, at)),
        26 => starts::of_type_head(forms::types::type_letter(s, at)),
        _ => reply::refused(7, 0),
    }
}
