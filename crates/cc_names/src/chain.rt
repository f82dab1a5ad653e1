// What a class has of a name, with the classes in which the search goes on (ECMA-372, 20 and 24; ISO/IEC 14882:2003, 10.2).
ghost use Rattle.std.specs.Prelude.{◌≡◌, ℕ, List, find, ◌&&◌, Some, None, slice_get};
ghost use Rattle.std.specs.List.{filter_map, flat_map};
ghost use Rattle.cc_names.specs.Lookup as spec;
ghost use Rattle.cc_names.specs.Chains as chains;

use crate::declarations::Declarations;
use crate::scope::ItemKind;
use cc_base::Name;
use cc_tree::ClassWord;

/// Where a search goes on after a class.
#[derive(Clone, Copy)]
enum Onward<'a> {
    Nothing,
    Class(u32),
    /// The interfaces of these names, in order.
    Interfaces(&'a [Name]),
}

/// What a search for a function meets first in the classes of a chain.
#[derive(Clone, Copy)]
enum Step {
    /// The class of which it is a member.
    Reached,
    /// A class with an equal function.
    Hidden,
    Passed,
}

impl Declarations {
    /// Where a search goes on after a class.
    fn onward(&self, class: u32) -> Onward<'_>
        ensures { chains.classes_of self.now.scopes self.now.items result ≡ spec.next_classes self.now.scopes self.now.items (slice_get self.now.items class) }
    {
        let item = match self.item(class) {
            None => return Onward::Nothing,
            Some(item) => item,
        };
        match &item.kind {
            ItemKind::Class(word, _, bases) => match word {
                ClassWord::Ref => {
                    if item.name.as_slice() == b"Object".as_slice() {
                        return Onward::Nothing;
                    }
                    match self.class_base(bases.as_slice(), b"Object") {
                        None => Onward::Nothing,
                        Some(base) => Onward::Class(base),
                    }
                }
                ClassWord::Value => match self.class_base(bases.as_slice(), b"ValueType") {
                    None => Onward::Nothing,
                    Some(base) => Onward::Class(base),
                },
                ClassWord::Interface => Onward::Interfaces(bases.as_slice()),
            },
            _ => Onward::Nothing,
        }
    }

    /// The first member in the nearest class of a chain that has one.
    #[cycle(nearest)]
    #[tactic(auto, using(crate::proofs::Chains::nearest_rules))]
    fn nearest(&self, left: usize, class: u32, numbers: &[u32]) -> Option<u32>
        ensures { result ≡ spec.nearest self.now.scopes self.now.items numbers.now (spec.chain_within self.now.scopes self.now.items left class) }
    {
        if left == 0 {
            return None;
        }
        if let Some(member) = self.first_member(numbers, class) {
            return Some(member);
        }
        match self.onward(class) {
            Onward::Nothing => None,
            Onward::Class(base) => self.nearest(left - 1, base, numbers),
            Onward::Interfaces(names) => self.nearest_of(left - 1, names, numbers),
        }
    }

    /// The same in the chains of interfaces, one after another.
    #[cycle(nearest)]
    #[tactic(auto, using(crate::proofs::Chains::nearest_rules))]
    fn nearest_of(&self, left: usize, names: &[Name], numbers: &[u32]) -> Option<u32>
        ensures { result ≡ spec.nearest self.now.scopes self.now.items numbers.now (flat_map (spec.chain_within self.now.scopes self.now.items left) (filter_map (spec.class_named self.now.scopes self.now.items) names.now)) }
    {
        for name in names {
            match self.nearest_named(left, name, numbers) {
                Some(member) => return Some(member),
                None => {}
            }
        }
        None
    }

    /// The same in the chain of an interface, by its name.
    #[cycle(nearest)]
    #[tactic(auto, using(crate::proofs::Chains::nearest_rules))]
    fn nearest_named(&self, left: usize, name: &Name, numbers: &[u32]) -> Option<u32>
        ensures { result ≡ spec.nearest self.now.scopes self.now.items numbers.now (flat_map (spec.chain_within self.now.scopes self.now.items left) (spec.or_none (spec.class_named self.now.scopes self.now.items name.now))) }
    {
        match self.class_named(name.as_slice()) {
            None => None,
            Some(class) => self.nearest(left, class, numbers),
        }
    }

    /// What a search for a function meets first in a chain.
    #[cycle(walk)]
    #[tactic(auto, using(crate::proofs::Chains::walk_rules))]
    fn walk(&self, left: usize, class: u32, numbers: &[u32], number: u32) -> Step
        ensures { result ≡ chains.walk self.now.scopes self.now.items numbers.now number (spec.chain_within self.now.scopes self.now.items left class) }
    {
        if left == 0 {
            return Step::Passed;
        }
        if self.is_member(class, number) {
            return Step::Reached;
        }
        if self.hides(numbers, class, number) {
            return Step::Hidden;
        }
        match self.onward(class) {
            Onward::Nothing => Step::Passed,
            Onward::Class(base) => self.walk(left - 1, base, numbers, number),
            Onward::Interfaces(names) => self.walk_of(left - 1, names, numbers, number),
        }
    }

    /// The same in the chains of interfaces, one after another.
    #[cycle(walk)]
    #[tactic(auto, using(crate::proofs::Chains::walk_rules))]
    fn walk_of(&self, left: usize, names: &[Name], numbers: &[u32], number: u32) -> Step
        ensures { result ≡ chains.walk self.now.scopes self.now.items numbers.now number (flat_map (spec.chain_within self.now.scopes self.now.items left) (filter_map (spec.class_named self.now.scopes self.now.items) names.now)) }
    {
        for name in names {
            match self.walk_named(left, name, numbers, number) {
                Step::Reached => return Step::Reached,
                Step::Hidden => return Step::Hidden,
                Step::Passed => {}
            }
        }
        Step::Passed
    }

    /// The same in the chain of an interface, by its name.
    #[cycle(walk)]
    #[tactic(auto, using(crate::proofs::Chains::walk_rules))]
    fn walk_named(&self, left: usize, name: &Name, numbers: &[u32], number: u32) -> Step
        ensures { result ≡ chains.walk self.now.scopes self.now.items numbers.now number (flat_map (spec.chain_within self.now.scopes self.now.items left) (spec.or_none (spec.class_named self.now.scopes self.now.items name.now))) }
    {
        match self.class_named(name.as_slice()) {
            None => Step::Passed,
            Some(class) => self.walk(left, class, numbers, number),
        }
    }

    /// Whether a function is a member of a class of a chain and is not hidden there.
    #[tactic(auto, using(crate::proofs::Chains::unhidden_reached))]
    fn is_unhidden(&self, class: u32, numbers: &[u32], number: u32) -> bool
        ensures { result ≡ spec.is_unhidden self.now.scopes self.now.items numbers.now (spec.chain self.now.scopes self.now.items class) number }
    {
        match self.walk(self.items.len(), class, numbers, number) {
            Step::Reached => true,
            Step::Hidden => false,
            Step::Passed => false,
        }
    }

    /// The first function of a chain that is not hidden there.
    fn first_unhidden(&self, class: u32, numbers: &[u32]) -> Option<u32>
        ensures { result ≡ find (λ number. spec.is_function_number self.now.scopes self.now.items number && spec.is_unhidden self.now.scopes self.now.items numbers.now (spec.chain self.now.scopes self.now.items class) number) numbers.now }
    {
        for number in numbers {
            if self.is_function_number(*number) && self.is_unhidden(class, numbers, *number) {
                return Some(*number);
            }
        }
        None
    }

    /// What a class has of a name, with its chain.
    pub(crate) fn in_class(&self, class: Option<u32>, numbers: &[u32]) -> Option<u32>
        ensures { result ≡ spec.in_class self.now.scopes self.now.items numbers.now class }
    {
        let class = match class {
            None => return None,
            Some(class) => class,
        };
        match self.nearest(self.items.len(), class, numbers) {
            None => None,
            Some(member) => {
                if self.is_function_number(member) {
                    self.first_unhidden(class, numbers)
                } else {
                    Some(member)
                }
            }
        }
    }
}
