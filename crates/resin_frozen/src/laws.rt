//! Laws of policy texts.
ghost use Rattle.resin_frozen.specs.Laws.{SaysOnePolicy, ReadsPolicies, FindsTexts, SaysItsFields};

/// A class and its fields have one text, and a text is that of one class and its fields, as far as a text keeps them: without labels, and
/// arrays as their entries alone. What is read at the front of bytes is the policy whose text stands there, and one policy text at most
/// stands there. A policy text says its class and its fields.
pub fn policy_laws()
    ensures one { SaysOnePolicy }
    ensures read { ReadsPolicies }
    ensures found { FindsTexts }
    ensures fields { SaysItsFields }
{}
