//! Elements and connections by name.

pub mod class;
mod names;
mod numbers;

ghost use Rattle.std.specs.Prelude.{◌≡◌, ◌∷◌, ◌||◌, Some, true, IfSome, IfOk, IfErr, IsOkUnless, ◌+◌, ◌++◌, ◌<◌, ◌≤◌, ◌^◌, ℕ, List, length, map, None, MatchResult, OnOk};
ghost use Rattle.std.specs.Option.{option_map};
ghost use Rattle.std.specs.List.{AllByRecursion};
ghost use Rattle.clk_packet.specs.declared.fault.Fault.TheVariants.{NameTwice, UnknownClass, BadArgument, UnknownName};
ghost use Rattle.clk_syntax.specs.Classes.{class_view, is_class};
ghost use Rattle.clk_syntax.specs.declared.limits.TheConstants.{MAX_TREE_BYTES};
ghost use Rattle.clk_syntax.specs.Source.{Declared, Element, letters, kept, elements_in, elements, word, port, wire, wires};
ghost use Rattle.clk_syntax.specs.Declarations.{name_twice, unknown_class, bad_argument, unknown_name, unknown_end, is_sender, class_in};
ghost use Rattle.clk_syntax.specs.Faults.{naming_fault, place_of, nodes_of, link_of, links_of, port_kept};
ghost use Rattle.clk_syntax.specs.inside.Naming.{Declares, IsSlotted, IsTable, Judges, Stops, may_stand, node_at, unknown_ends, IsLinkBelow};
ghost use Rattle.clk_syntax.specs.inside.Numbers.{has_number};
ghost use Rattle.clk_syntax.specs.Within.{IsWithin, AreWithin, IsDeclaredWithin, IsConnectedWithin, IsLinkWithin, IsNamed, IsNumber, HasNumbers, words_in};

use crate::limits::MAX_PORT;
use crate::naming::class::{Class, ClassName, Role, letters};
use crate::naming::names::DeclaredNames;
use crate::naming::numbers::Numbers;
use crate::node::{Link, Node};
use crate::texts::statements::{Connection, Declaration, Statements};
use crate::texts::token::Token;
use clk_packet::{Fault, number_in};
use std::alloc::Global;

/// The classes and nodes of the elements of a text, and its connections.
#[derive(Drop)]
pub struct Named {
    /// The class of each declaration, in order.
    pub classes: Vec<Class>,
    pub nodes: Vec<Node>,
    pub links: Vec<Link>,
}

/// What a text declares and connects, by name. Faults 5, 3, 4 and 6, in this order, each at its first place, and fault 1 if an allocation
/// fails.
pub fn name_all(alloc: Global, text: &[u8], statements: &Statements) -> Result<Named, Fault>
    requires declared_within { AllByRecursion (IsDeclaredWithin (length text.now)) (map kept statements.now.declarations.items) }
    requires connected_within { AllByRecursion (IsConnectedWithin (length text.now)) statements.now.connections.items }
    requires named { AllByRecursion IsNamed (map kept statements.now.declarations.items) }
    requires numbers { AllByRecursion (HasNumbers text.now) statements.now.connections.items }
    requires few { words_in (map kept statements.now.declarations.items) ≤ MAX_TREE_BYTES }
    ensures faultless { let all = elements text.now (map kept statements.now.declarations.items) in
        OnOk result (naming_fault all (wires text.now statements.now.connections.items) ≡ None) }
    ensures classes { IfOk result (λ named. map (class_in text.now) (map kept statements.now.declarations.items) ≡ map is_class named.classes.items) }
    ensures nodes { let all = elements text.now (map kept statements.now.declarations.items) in
        IfOk result (λ named. named.nodes.items ≡ nodes_of all) }
    ensures count { let all = elements text.now (map kept statements.now.declarations.items) in
        IfOk result (λ named. length named.nodes.items ≡ length all) }
    ensures links { let all = elements text.now (map kept statements.now.declarations.items) in
        IfOk result (λ named. named.links.items ≡ links_of all (wires text.now statements.now.connections.items)) }
    ensures within { IfOk result (λ named. AllByRecursion (IsLinkWithin named.nodes.items) named.links.items) }
    ensures fault { let all = elements text.now (map kept statements.now.declarations.items) in
        IfErr result (Stops (naming_fault all (wires text.now statements.now.connections.items))) }
{
    let names = names_of(alloc, text, &statements.declarations)?;
    check_classes(text, &statements.declarations)?;
    let judged = judge_all(alloc, text, &statements.declarations)?;
    let links = links_of(alloc, text, &names, &statements.connections)?;
    let JudgedElements {
        classes,
        nodes,
        senders: _,
    } = judged;
    Ok(Named {
        classes,
        nodes,
        links,
    })
}

/// The names that are declared, with their places. Fault 5 at the first that was declared before, and fault 1 if an allocation fails.
fn names_of<'a>(
    alloc: Global,
    text: &'a [u8],
    declarations: &[Declaration],
) -> Result<DeclaredNames<'a>, Fault>
    requires within { AllByRecursion (IsDeclaredWithin (length text.now)) (map kept declarations.now) }
    requires few { words_in (map kept declarations.now) ≤ MAX_TREE_BYTES }
    ensures { let all = elements text.now (map kept declarations.now) in
        MatchResult result (λ names. (name_twice all ≡ None) × IsTable all names) (Stops (option_map NameTwice (name_twice all))) }
{
    let mut names = DeclaredNames::new(alloc, declarations.len())?;
    for declaration in declarations {
        declare(&mut names, text, declaration)?;
    }
    Ok(names)
}

/// Declares the names of a declaration. Fault 5 at a name that was declared before, and fault 1 if an allocation fails.
fn declare<'a>(
    names: &mut DeclaredNames<'a>,
    text: &'a [u8],
    declaration: &Declaration,
) -> Result<(), Fault>
    requires within { AreWithin (length text.now) declaration.now.names.items }
    requires few { names.old.count + length declaration.now.names.items < 2 ^ 32 }
    requires slots { IsSlotted names.old }
    ensures slots { OnOk result (IsSlotted names.new) }
    ensures counted { OnOk result (names.new.count ≡ names.old.count + length declaration.now.names.items) }
    ensures declared { (all more : List Element) → Declares all (elements_in text.now (kept declaration.now) ++ more) names.old
        → MatchResult result (λ _. Declares all more names.new) (Stops (option_map NameTwice (name_twice all))) }
{
    for name in declaration.names.as_slice() {
        if !names.declare(letters(text, name))? {
            return Err(Fault::NameTwice { offset: name.place });
        }
    }
    Ok(())
}

/// Fault 3 at the first class that isn't there.
fn check_classes(text: &[u8], declarations: &[Declaration]) -> Result<(), Fault>
    requires within { AllByRecursion (IsDeclaredWithin (length text.now)) (map kept declarations.now) }
    requires named { AllByRecursion IsNamed (map kept declarations.now) }
    ensures { let all = elements text.now (map kept declarations.now) in
        MatchResult result (λ _. unknown_class all ≡ None) (λ fault. option_map UnknownClass (unknown_class all) ≡ Some fault) }
{
    for declaration in declarations {
        match ClassName::named(letters(text, &declaration.class)) {
            Some(_) => {}
            None => {
                return Err(Fault::UnknownClass {
                    offset: declaration.class.place,
                });
            }
        }
    }
    Ok(())
}

/// What is known of the elements of some declarations.
#[derive(Drop)]
struct JudgedElements {
    /// The class of each declaration.
    classes: Vec<Class>,
    nodes: Vec<Node>,
    /// The numbers of the Senders.
    senders: Numbers,
}

/// Classes and nodes of all declarations. Fault 4 at the first whose arguments don't fit, and fault 1 if an allocation fails.
fn judge_all(
    alloc: Global,
    text: &[u8],
    declarations: &[Declaration],
) -> Result<JudgedElements, Fault>
    requires within { AllByRecursion (IsDeclaredWithin (length text.now)) (map kept declarations.now) }
    requires named { AllByRecursion IsNamed (map kept declarations.now) }
    requires few { words_in (map kept declarations.now) ≤ MAX_TREE_BYTES }
    ensures { let all = elements text.now (map kept declarations.now) in
        MatchResult result
        (λ judged. (bad_argument all ≡ None)
        × (map (class_in text.now) (map kept declarations.now) ≡ map is_class judged.classes.items)
        × (judged.nodes.items ≡ nodes_of all)
        × (length judged.nodes.items ≡ length all))
        (Stops (option_map BadArgument (bad_argument all))) }
{
    let mut judged = JudgedElements {
        classes: Vec::with_capacity(alloc, declarations.len())?,
        nodes: Vec::with_capacity(alloc, declarations.len())?,
        senders: Numbers::new(alloc)?,
    };
    for declaration in declarations {
        judged.judge(alloc, text, declaration)?;
    }
    Ok(judged)
}

impl JudgedElements {
    /// Adds the elements of a declaration. Fault 4 if its arguments don't fit, and fault 1 if an allocation fails.
    fn judge(&mut self, alloc: Global, text: &[u8], declaration: &Declaration) -> Result<(), Fault>
        requires within { IsDeclaredWithin (length text.now) (kept declaration.now) }
        requires named { IsNamed (kept declaration.now) }
        requires few { length declaration.now.arguments.items ≤ MAX_TREE_BYTES }
        ensures { (all left : List Declared) → Judges text.now all (kept declaration.now ∷ left) self.old
            → MatchResult result (λ _. Judges text.now all left self.new) (Stops (option_map BadArgument (bad_argument (elements text.now all)))) }
    {
        let bad = Fault::BadArgument {
            offset: declaration.class.place,
        };
        let class = match class_of(alloc, text, declaration)? {
            Some(class) => class,
            None => return Err(bad),
        };
        if !stands(&mut self.senders, &class, declaration.names.len()) {
            return Err(bad);
        }
        push_nodes(&mut self.nodes, &declaration.names, class.role())?;
        self.classes.push(class)?;
        Ok(())
    }
}

/// The class of a declaration with its arguments, if there is such a class and it takes them. Fault 1 if an allocation fails.
fn class_of(alloc: Global, text: &[u8], declaration: &Declaration) -> Result<Option<Class>, Fault>
    requires { IsDeclaredWithin (length text.now) (kept declaration.now) }
    ensures class { IfOk result (λ class. option_map class_view class ≡ class_in text.now (kept declaration.now)) }
    ensures fault { IsOkUnless result Fault.Memory }
{
    match ClassName::named(letters(text, &declaration.class)) {
        Some(name) => Class::with(alloc, text, name, &declaration.arguments),
        None => Ok(None),
    }
}

/// Whether so many elements may be of a class after Senders of these numbers. The number of a Sender is added.
fn stands(senders: &mut Numbers, class: &Class, names: usize) -> bool
    ensures stands { result ≡ may_stand (has_number senders.old) (class_view class.now) names }
    ensures added { result ≡ true → (n : ℕ) → has_number senders.new n ≡ (is_sender n (Some (class_view class.now)) || has_number senders.old n) }
{
    match class {
        Class::Sender(number) => {
            if names > 1 {
                return false;
            }
            senders.insert(*number)
        }
        _ => true,
    }
}

/// Adds an element of these ports for each name. Fault 1 if an allocation fails.
fn push_nodes(nodes: &mut Vec<Node>, names: &[Token], role: Role) -> Result<(), Fault>
    ensures nodes { OnOk result (nodes.new.items ≡ nodes.old.items ++ map (node_at role) names.now) }
    ensures fault { IsOkUnless result Fault.Memory }
{
    for name in names {
        nodes.push(Node {
            place: name.place,
            role,
        })?;
    }
    Ok(())
}

/// The connections. Fault 6 at the first name that isn't declared, and fault 1 if an allocation fails.
fn links_of<'a>(
    alloc: Global,
    text: &'a [u8],
    names: &DeclaredNames<'a>,
    connections: &[Connection],
) -> Result<Vec<Link>, Fault>
    requires within { AllByRecursion (IsConnectedWithin (length text.now)) connections.now }
    requires numbers { AllByRecursion (HasNumbers text.now) connections.now }
    ensures { (all : List Element) → IsTable all names.now → MatchResult result
        (λ links. (unknown_name all (wires text.now connections.now) ≡ None)
        × (links.items ≡ links_of all (wires text.now connections.now))
        × AllByRecursion (IsLinkBelow (length all)) links.items)
        (Stops (option_map UnknownName (unknown_name all (wires text.now connections.now)))) }
{
    let mut links = Vec::with_capacity(alloc, connections.len())?;
    for connection in connections {
        links.push(link_of(text, names, connection)?)?;
    }
    Ok(links)
}

/// A connection. Fault 6 at the name that isn't declared.
fn link_of<'a>(
    text: &'a [u8],
    names: &DeclaredNames<'a>,
    connection: &Connection,
) -> Result<Link, Fault>
    requires within { IsConnectedWithin (length text.now) connection.now }
    requires numbers { HasNumbers text.now connection.now }
    ensures { (all : List Element) → IsTable all names.now → MatchResult result
        (λ link. (unknown_ends all (wire text.now connection.now) ≡ None)
        × (link ≡ link_of all (wire text.now connection.now))
        × IsLinkBelow (length all) link)
        (λ fault. option_map UnknownName (unknown_ends all (wire text.now connection.now)) ≡ Some fault) }
{
    let from = place_at(text, names, &connection.from)?;
    let to = place_at(text, names, &connection.to)?;
    Ok(Link {
        from,
        output: port_at(text, &connection.output),
        input: port_at(text, &connection.input),
        to,
        from_place: connection.from.place,
        to_place: connection.to.place,
    })
}

/// The place of the element of this name. Fault 6 if it isn't declared.
fn place_at<'a>(text: &'a [u8], names: &DeclaredNames<'a>, name: &Token) -> Result<u32, Fault>
    requires { IsWithin (length text.now) name.now }
    ensures { (all : List Element) → IsTable all names.now → MatchResult result
        (λ place. (unknown_end all (word text.now name.now) ≡ None)
        × (place ≡ place_of all (letters text.now name.now))
        × (place < length all))
        (λ fault. option_map UnknownName (unknown_end all (word text.now name.now)) ≡ Some fault) }
{
    match names.place_of(letters(text, name)) {
        Some(place) => Ok(place),
        None => Err(Fault::UnknownName { offset: name.place }),
    }
}

/// The port that is written, or 0, as it stands in a link: each above 65,535 as 65,536.
fn port_at(text: &[u8], written: &Option<Token>) -> u32
    requires within { IfSome written.now (IsWithin (length text.now)) }
    requires number { IfSome written.now (IsNumber text.now) }
    ensures { result ≡ port_kept (port text.now written.now) }
{
    match written {
        Some(number) => match number_in(letters(text, number), 0, MAX_PORT as u64) {
            Some(number) => number as u32,
            None => MAX_PORT + 1,
        },
        None => 0,
    }
}
