//! Why an input is refused, as text.
ghost use Rattle.std.specs.Prelude.{◌≡◌, ◌++◌, IfOk, codes, decimal};
ghost use Rattle.cross_top.specs.Refusals.{reason_text, line_text, spot_text, data_text};

use itoa::Buffer;
use nest_data::DataKind;
use nest_input::Refusal;
use nest_lex::Spot;
use nest_syntax::NoMemory;
use std::alloc::Global;

/// The reason that stands behind `refused: `.
pub fn reason_text(alloc: Global, why: &Refusal) -> Result<Vec<u8>, NoMemory>
    ensures { IfOk result (λ text. text.items ≡ reason_text why.now) }
{
    match why {
        Refusal::Token(at) => spot_text(alloc, b"token", *at),
        Refusal::Dense(at) => spot_text(alloc, b"dense", *at),
        Refusal::Syntax(at) => spot_text(alloc, b"syntax", *at),
        Refusal::Rule { rule, line } => {
            let what = rule_text(alloc, *rule)?;
            line_text(alloc, what.as_slice(), line.0)
        }
        Refusal::Data { kind, line } => line_text(alloc, data_text(*kind), *line),
    }
}

fn data_text(kind: DataKind) -> &'static [u8]
    ensures { result.now ≡ data_text kind }
{
    match kind {
        DataKind::Name => b"data name",
        DataKind::Repeated => b"data repeated",
        DataKind::Number => b"data number",
        DataKind::Count => b"data count",
    }
}

fn rule_text(alloc: Global, rule: u8) -> Result<Vec<u8>, NoMemory>
    ensures { IfOk result (λ text. text.items ≡ codes "rule " ++ decimal rule) }
{
    let mut number = Buffer::new();
    let mut text = Vec::from_slice(alloc, b"rule ")?;
    text.extend_from_slice(number.format(rule).as_bytes())?;
    Ok(text)
}

fn line_text(alloc: Global, what: &[u8], line: u32) -> Result<Vec<u8>, NoMemory>
    ensures { IfOk result (λ text. text.items ≡ line_text what.now line) }
{
    let mut number = Buffer::new();
    let mut text = Vec::from_slice(alloc, what)?;
    text.extend_from_slice(b" at line ")?;
    text.extend_from_slice(number.format(line).as_bytes())?;
    Ok(text)
}

fn spot_text(alloc: Global, what: &[u8], at: Spot) -> Result<Vec<u8>, NoMemory>
    ensures { IfOk result (λ text. text.items ≡ spot_text what.now at) }
{
    let mut number = Buffer::new();
    let mut text = line_text(alloc, what, at.line)?;
    text.extend_from_slice(b" column ")?;
    text.extend_from_slice(number.format(at.column).as_bytes())?;
    Ok(text)
}
