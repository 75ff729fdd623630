//! The functions of the language, by how many arguments they take.
ghost use Rattle.std.specs.Prelude.{◌≡◌};
ghost use Rattle.expr_lang.specs.Names.{function_named};

/// A function without arguments.
#[derive(Clone, Copy, Debug, PartialEq, Eq)]
pub enum Nullary {
    IsEmpty,
    Length,
    ToUpper,
    ToLower,
    Not,
}

/// A function with one argument.
#[derive(Clone, Copy, Debug, PartialEq, Eq)]
pub enum Unary {
    Equals,
    StartsWith,
    EndsWith,
    Contains,
    Append,
    Prepend,
    SubstringBefore,
    SubstringAfter,
    GreaterThan,
    LessThan,
    Plus,
    Minus,
    And,
    Or,
}

/// A function with two arguments.
#[derive(Clone, Copy, Debug, PartialEq, Eq)]
pub enum Binary {
    Replace,
}

/// A function, by how many arguments it takes.
#[derive(Clone, Copy, Debug, PartialEq, Eq)]
pub enum Function {
    Alone(Nullary),
    WithOne(Unary),
    WithTwo(Binary),
}

impl Function {
    /// The function of this name, or `None` where there is none.
    #[tactic(auto, unfolding(crate::specs::Names::function_named))]
    pub fn named(name: &str) -> Option<Function>
        ensures { result ≡ function_named name.now }
    {
        let function = match name {
            "isEmpty" => Function::Alone(Nullary::IsEmpty),
            "length" => Function::Alone(Nullary::Length),
            "toUpper" => Function::Alone(Nullary::ToUpper),
            "toLower" => Function::Alone(Nullary::ToLower),
            "not" => Function::Alone(Nullary::Not),
            "equals" => Function::WithOne(Unary::Equals),
            "startsWith" => Function::WithOne(Unary::StartsWith),
            "endsWith" => Function::WithOne(Unary::EndsWith),
            "contains" => Function::WithOne(Unary::Contains),
            "append" => Function::WithOne(Unary::Append),
            "prepend" => Function::WithOne(Unary::Prepend),
            "substringBefore" => Function::WithOne(Unary::SubstringBefore),
            "substringAfter" => Function::WithOne(Unary::SubstringAfter),
            "gt" => Function::WithOne(Unary::GreaterThan),
            "lt" => Function::WithOne(Unary::LessThan),
            "plus" => Function::WithOne(Unary::Plus),
            "minus" => Function::WithOne(Unary::Minus),
            "and" => Function::WithOne(Unary::And),
            "or" => Function::WithOne(Unary::Or),
            "replace" => Function::WithTwo(Binary::Replace),
            _ => return None,
        };
        Some(function)
    }
}
