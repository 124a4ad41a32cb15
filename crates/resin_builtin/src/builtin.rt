//! The builtin functions, by what they take.

/// A function that scripts call by name.
#[derive(Clone, Copy, Debug, Eq, PartialEq)]
pub enum Builtin {
    OneText(OneText),
    Digest(Digest),
    TwoTexts(TwoTexts),
    Trim(TrimSide),
    OneInteger(OneInteger),
    Test(Test),
    OneArray(OneArray),
    /// `substr`
    Substr,
    /// `strpos`
    Strpos,
    /// `str_replace`
    StrReplace,
    /// `str_repeat`
    StrRepeat,
    /// `implode`
    Implode,
    /// `str_pad`
    StrPad,
    /// `sprintf`
    Sprintf,
    /// `intval`
    Intval,
    /// `intdiv`
    Intdiv,
    /// `get_class`
    GetClass,
    /// `array_merge`
    ArrayMerge,
    /// `array_slice`
    ArraySlice,
    /// `array_reverse`
    ArrayReverse,
    /// `in_array`
    InArray,
    /// `array_key_exists`
    ArrayKeyExists,
}

/// A function of one text.
#[derive(Clone, Copy, Debug, Eq, PartialEq)]
pub enum OneText {
    /// `strlen`
    Length,
    /// `strtoupper`
    UpperCase,
    /// `strtolower`
    LowerCase,
    /// `ucfirst`
    UpperFirst,
    /// `strrev`
    Reversed,
    /// `htmlspecialchars`
    HtmlEscaped,
    /// `addslashes`
    Slashed,
    /// `sql_quote`
    SqlQuoted,
    /// `urlencode`
    UrlEncoded,
    /// `rawurlencode`
    RawUrlEncoded,
    /// `nl2br`
    WithBreaks,
    /// `bin2hex`
    Hexadecimal,
    /// `ord`
    FirstByte,
    /// `strval`
    Itself,
}

/// A function of one text whose answer carries the text's merged labels.
#[derive(Clone, Copy, Debug, Eq, PartialEq)]
pub enum Digest {
    /// `md5`
    Md5,
    /// `sha1`
    Sha1,
}

/// A function of two texts.
#[derive(Clone, Copy, Debug, Eq, PartialEq)]
pub enum TwoTexts {
    /// `strrpos`
    LastPlace,
    /// `str_contains`
    Contains,
    /// `str_starts_with`
    StartsWith,
    /// `str_ends_with`
    EndsWith,
    /// `substr_count`
    MatchCount,
    /// `strcmp`
    Order,
    /// `explode`
    Explode,
}

/// The ends that are trimmed.
#[derive(Clone, Copy, Debug, Eq, PartialEq)]
pub enum TrimSide {
    /// `trim`
    Both,
    /// `ltrim`
    Front,
    /// `rtrim`
    Back,
}

/// A function of one integer.
#[derive(Clone, Copy, Debug, Eq, PartialEq)]
pub enum OneInteger {
    /// `chr`
    Character,
    /// `abs`
    Magnitude,
}

/// A test of the kind of a value.
#[derive(Clone, Copy, Debug, Eq, PartialEq)]
pub enum Test {
    /// `is_null`
    Null,
    /// `is_bool`
    Bool,
    /// `is_int`
    Int,
    /// `is_string`
    Text,
    /// `is_array`
    Array,
    /// `is_object`
    Object,
    /// `is_numeric`
    Numeric,
}

/// A function of one array.
#[derive(Clone, Copy, Debug, Eq, PartialEq)]
pub enum OneArray {
    /// `count`
    Count,
    /// `array_keys`
    Keys,
    /// `array_values`
    Values,
}
