//! The names of the builtin functions.
ghost use Rattle.std.specs.Prelude.{◌≡◌};
ghost use Rattle.resin_builtin.specs.Names.{named, builtin_named, search_names, part_names, join_names};
ghost use Rattle.resin_builtin.specs.Names.{escape_names, number_names, test_names, array_names};

use crate::builtin::{Builtin, Digest, OneArray, OneInteger, OneText, Test, TrimSide, TwoTexts};
use resin_scan::words::spells;

/// The builtin function of a name, in any case of ASCII letters, `None` exactly where there is none of that name.
pub fn builtin_named(name: &[u8]) -> Option<Builtin>
    ensures { result ≡ builtin_named name.now }
{
    if let Some(search) = search_named(name) {
        return Some(search);
    }
    if let Some(part) = part_named(name) {
        return Some(part);
    }
    if let Some(join) = join_named(name) {
        return Some(join);
    }
    if let Some(escape) = escape_named(name) {
        return Some(escape);
    }
    if let Some(number) = number_named(name) {
        return Some(number);
    }
    if let Some(test) = test_named(name) {
        return Some(test);
    }
    array_named(name)
}

// A search, a measure or a comparison of texts.
#[tactic(auto, unfolding(crate::specs::Names::search_names))]
fn search_named(name: &[u8]) -> Option<Builtin>
    ensures { result ≡ named search_names name.now }
{
    if spells(b"strlen", name) {
        Some(Builtin::OneText(OneText::Length))
    } else if spells(b"strpos", name) {
        Some(Builtin::Strpos)
    } else if spells(b"strrpos", name) {
        Some(Builtin::TwoTexts(TwoTexts::LastPlace))
    } else if spells(b"str_contains", name) {
        Some(Builtin::TwoTexts(TwoTexts::Contains))
    } else if spells(b"str_starts_with", name) {
        Some(Builtin::TwoTexts(TwoTexts::StartsWith))
    } else if spells(b"str_ends_with", name) {
        Some(Builtin::TwoTexts(TwoTexts::EndsWith))
    } else if spells(b"substr_count", name) {
        Some(Builtin::TwoTexts(TwoTexts::MatchCount))
    } else if spells(b"strcmp", name) {
        Some(Builtin::TwoTexts(TwoTexts::Order))
    } else {
        None
    }
}

// Parts and letters of texts.
#[tactic(auto, unfolding(crate::specs::Names::part_names))]
fn part_named(name: &[u8]) -> Option<Builtin>
    ensures { result ≡ named part_names name.now }
{
    if spells(b"substr", name) {
        Some(Builtin::Substr)
    } else if spells(b"trim", name) {
        Some(Builtin::Trim(TrimSide::Both))
    } else if spells(b"ltrim", name) {
        Some(Builtin::Trim(TrimSide::Front))
    } else if spells(b"rtrim", name) {
        Some(Builtin::Trim(TrimSide::Back))
    } else if spells(b"strtoupper", name) {
        Some(Builtin::OneText(OneText::UpperCase))
    } else if spells(b"strtolower", name) {
        Some(Builtin::OneText(OneText::LowerCase))
    } else if spells(b"ucfirst", name) {
        Some(Builtin::OneText(OneText::UpperFirst))
    } else if spells(b"strrev", name) {
        Some(Builtin::OneText(OneText::Reversed))
    } else {
        None
    }
}

// Texts made of others, and of numbers.
#[tactic(auto, unfolding(crate::specs::Names::join_names))]
fn join_named(name: &[u8]) -> Option<Builtin>
    ensures { result ≡ named join_names name.now }
{
    if spells(b"str_repeat", name) {
        Some(Builtin::StrRepeat)
    } else if spells(b"str_pad", name) {
        Some(Builtin::StrPad)
    } else if spells(b"implode", name) {
        Some(Builtin::Implode)
    } else if spells(b"explode", name) {
        Some(Builtin::TwoTexts(TwoTexts::Explode))
    } else if spells(b"str_replace", name) {
        Some(Builtin::StrReplace)
    } else if spells(b"sprintf", name) {
        Some(Builtin::Sprintf)
    } else if spells(b"chr", name) {
        Some(Builtin::OneInteger(OneInteger::Character))
    } else if spells(b"ord", name) {
        Some(Builtin::OneText(OneText::FirstByte))
    } else {
        None
    }
}

// Escapes and digests.
#[tactic(auto, unfolding(crate::specs::Names::escape_names))]
fn escape_named(name: &[u8]) -> Option<Builtin>
    ensures { result ≡ named escape_names name.now }
{
    if spells(b"htmlspecialchars", name) {
        Some(Builtin::OneText(OneText::HtmlEscaped))
    } else if spells(b"addslashes", name) {
        Some(Builtin::OneText(OneText::Slashed))
    } else if spells(b"sql_quote", name) {
        Some(Builtin::OneText(OneText::SqlQuoted))
    } else if spells(b"urlencode", name) {
        Some(Builtin::OneText(OneText::UrlEncoded))
    } else if spells(b"rawurlencode", name) {
        Some(Builtin::OneText(OneText::RawUrlEncoded))
    } else if spells(b"nl2br", name) {
        Some(Builtin::OneText(OneText::WithBreaks))
    } else if spells(b"bin2hex", name) {
        Some(Builtin::OneText(OneText::Hexadecimal))
    } else if spells(b"md5", name) {
        Some(Builtin::Digest(Digest::Md5))
    } else if spells(b"sha1", name) {
        Some(Builtin::Digest(Digest::Sha1))
    } else {
        None
    }
}

// Numbers and classes.
#[tactic(auto, unfolding(crate::specs::Names::number_names))]
fn number_named(name: &[u8]) -> Option<Builtin>
    ensures { result ≡ named number_names name.now }
{
    if spells(b"intval", name) {
        Some(Builtin::Intval)
    } else if spells(b"strval", name) {
        Some(Builtin::OneText(OneText::Itself))
    } else if spells(b"abs", name) {
        Some(Builtin::OneInteger(OneInteger::Magnitude))
    } else if spells(b"intdiv", name) {
        Some(Builtin::Intdiv)
    } else if spells(b"get_class", name) {
        Some(Builtin::GetClass)
    } else {
        None
    }
}

// Tests of values.
#[tactic(auto, unfolding(crate::specs::Names::test_names))]
fn test_named(name: &[u8]) -> Option<Builtin>
    ensures { result ≡ named test_names name.now }
{
    if spells(b"is_null", name) {
        Some(Builtin::Test(Test::Null))
    } else if spells(b"is_bool", name) {
        Some(Builtin::Test(Test::Bool))
    } else if spells(b"is_int", name) {
        Some(Builtin::Test(Test::Int))
    } else if spells(b"is_string", name) {
        Some(Builtin::Test(Test::Text))
    } else if spells(b"is_array", name) {
        Some(Builtin::Test(Test::Array))
    } else if spells(b"is_object", name) {
        Some(Builtin::Test(Test::Object))
    } else if spells(b"is_numeric", name) {
        Some(Builtin::Test(Test::Numeric))
    } else {
        None
    }
}

// Arrays.
#[tactic(auto, unfolding(crate::specs::Names::array_names))]
fn array_named(name: &[u8]) -> Option<Builtin>
    ensures { result ≡ named array_names name.now }
{
    if spells(b"count", name) {
        Some(Builtin::OneArray(OneArray::Count))
    } else if spells(b"array_keys", name) {
        Some(Builtin::OneArray(OneArray::Keys))
    } else if spells(b"array_values", name) {
        Some(Builtin::OneArray(OneArray::Values))
    } else if spells(b"array_merge", name) {
        Some(Builtin::ArrayMerge)
    } else if spells(b"array_slice", name) {
        Some(Builtin::ArraySlice)
    } else if spells(b"array_reverse", name) {
        Some(Builtin::ArrayReverse)
    } else if spells(b"in_array", name) {
        Some(Builtin::InArray)
    } else if spells(b"array_key_exists", name) {
        Some(Builtin::ArrayKeyExists)
    } else {
        None
    }
}
