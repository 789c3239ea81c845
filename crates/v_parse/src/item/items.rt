//! Module items.

ghost use Rattle.std.specs.Prelude.{◌≡◌, ◌<◌, suc, false, List, IfOk, IfErr};
ghost use Rattle.v_syntax.specs.declared.token.Token.{Token};
ghost use Rattle.v_syntax.specs.declared.word.Keyword.TheVariants as word;
ghost use Rattle.v_syntax.specs.SourceTrees.{ItemTree, view_kind, view_item};
ghost use Rattle.v_syntax.specs.Items;
ghost use Rattle.v_expression.specs.Phrase.Stops.{Gives};
ghost use Rattle.v_expression.specs.Phrase.Refusals.{IsRefusal, IsRead};
ghost use Rattle.v_expression.specs.Phrase.Readers.{starts_word};
ghost use Rattle.v_parse.specs.Item.Firsts as firsts;
ghost use Rattle.v_parse.specs.Item.Firsts.{form_of, word_form};
ghost use Rattle.v_parse.specs.Item.Reading.{kind_of, item_of};

use crate::item::assignments::continuous_assignments;
use crate::item::declarations::{integers, nets, parameters, ports, registers};
use crate::item::instances::instance;
use crate::item::kinds::item_with;
use crate::item::processes::{always, initial};
use port_io::boxed;
use std::alloc::Global;
use v_expression::phrase::{ReadError, next, place, syntax_error};
use v_syntax::{Item, ItemForm, ItemKind, Keyword, Token};

/// The form of the item that begins with the first token, if one does.
fn form(tokens: &[Token]) -> Option<ItemForm>
    ensures { result ≡ form_of tokens.now }
{
    match next(tokens) {
        Some((Token::Name(_), _)) => Some(ItemForm::Instance),
        Some((Token::Keyword(word), _)) => form_of_word(*word),
        _ => None,
    }
}

/// The form of an item that begins with this word, if one does.
fn form_of_word(word: Keyword) -> Option<ItemForm>
    ensures { result ≡ word_form word }
{
    match word {
        Keyword::Input | Keyword::Output => Some(ItemForm::Ports),
        Keyword::Wire => Some(ItemForm::Nets),
        Keyword::Reg => Some(ItemForm::Registers),
        Keyword::Integer => Some(ItemForm::Integers),
        Keyword::Parameter | Keyword::LocalParam => Some(ItemForm::Parameters),
        Keyword::Assign => Some(ItemForm::ContinuousAssignments),
        Keyword::Always => Some(ItemForm::Always),
        Keyword::Initial => Some(ItemForm::Initial),
        _ => None,
    }
}

/// Whether an item begins with the first token.
pub fn starts_item(tokens: &[Token]) -> bool
    ensures { result ≡ firsts.starts_item tokens.now }
{
    form(tokens).is_some()
}

/// An item without the number of its first token.
#[tactic(auto, unfolding(crate::specs::Item::Reading::kind_of))]
fn kind(
    alloc: Global,
    total: usize,
    room: usize,
    tokens: &[Token],
) -> Result<(Box<ItemKind>, &[Token]), ReadError>
    requires { room < 1000 }
    ensures { Gives (λ x. (view_kind x.0.value, x.1.now)) result (kind_of total room tokens.now) }
{
    match form(tokens) {
        None => Err(syntax_error(tokens)),
        Some(ItemForm::Ports) => ports(alloc, total, room, tokens),
        Some(ItemForm::Nets) => nets(alloc, total, room, tokens),
        Some(ItemForm::Registers) => registers(alloc, total, room, tokens),
        Some(ItemForm::Integers) => integers(alloc, total, tokens),
        Some(ItemForm::Parameters) => parameters(alloc, total, room, tokens),
        Some(ItemForm::ContinuousAssignments) => continuous_assignments(alloc, total, room, tokens),
        Some(ItemForm::Always) => always(alloc, total, room, tokens),
        Some(ItemForm::Initial) => initial(alloc, total, room, tokens),
        Some(ItemForm::Instance) => instance(alloc, total, room, tokens),
    }
}

/// [`item`], by what its reader gives alone.
#[tactic(auto, unfolding(crate::specs::Item::Reading::item_of))]
fn item_at(
    alloc: Global,
    total: usize,
    room: usize,
    tokens: &[Token],
) -> Result<(Box<Item>, &[Token]), ReadError>
    requires { room < 1000 }
    ensures { Gives (λ x. (view_item x.0.value, x.1.now)) result (item_of total room tokens.now) }
{
    let at = place(total, tokens);
    let (kind, rest) = kind(alloc, total, room, tokens)?;
    Ok((boxed(alloc, item_with(at, kind))?, rest))
}

/// Reads a module item (IEEE 1364-2005, annex A.1.4) at the front of the tokens, which are the last of a text of `total`
/// tokens. Its expressions, targets and statements have heights of at most `room + 1`. Also gives the tokens behind it.
pub fn item(
    alloc: Global,
    total: usize,
    room: usize,
    tokens: &[Token],
) -> Result<(Box<Item>, &[Token]), ReadError>
    requires { room < 1000 }
    ensures gives { Gives (λ x. (view_item x.0.value, x.1.now)) result (item_of total room tokens.now) }
    // What is read is an item that spells the tokens up to those that are given, within the height.
    ensures found { IfOk result (λ x. (Items.item total (suc room)).whole (view_item x.0.value) tokens.now x.1.now) }
    // An item within the height is read, unless memory runs out, where no `else` follows it.
    ensures only { (i : ItemTree) (rest : List Token) → (Items.item total (suc room)).whole i tokens.now rest
        → starts_word word.Else rest ≡ false → IsRead (λ x. (view_item x.0.value ≡ i) × (x.1.now ≡ rest)) result }
    // A refusal is at the first token that no partial item within the height spells.
    ensures refused { IfErr result (λ e. IsRefusal (λ n rest. (Items.item total (suc n)).front tokens.now rest) room e) }
{
    item_at(alloc, total, room, tokens)
}
