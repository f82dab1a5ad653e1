// Which section of a switch is chosen.
ghost use Rattle.std.specs.Prelude.{◌≡◌, IfOk, drop};
ghost use Rattle.cc_core.specs.Leave.{is_case, find_case, has_default};
ghost use Rattle.cc_core.specs.Lists.{sections_of};
ghost use Rattle.cc_mean.specs.Chosen.{from_default, chosen_from};

use crate::steps::begin;
use cc_core::{Section, State, SwitchLabel, Value};
use std::alloc::AllocError;

fn is_case(value: &Value, case: u64) -> bool
    ensures { result ≡ is_case value.now case }
{
    match value {
        Value::Int32(n) => u64::from(*n) == case,
        Value::Int64(n) => *n == case,
        _ => false,
    }
}

/// Whether one of the labels is the value's. Each label that is tested is begun.
fn has_case(state: &mut State, value: &Value, labels: &[SwitchLabel]) -> Result<bool, AllocError>
    ensures { IfOk result (λ found. (found, state.new) ≡ find_case value.now labels.now state.old) }
{
    for label in labels {
        match label {
            SwitchLabel::Case(case) => {
                begin(state)?;
                if is_case(value, *case) {
                    return Ok(true);
                }
            }
            SwitchLabel::Default => {}
        }
    }
    Ok(false)
}

fn has_default(labels: &[SwitchLabel]) -> bool
    ensures { result ≡ has_default labels.now }
{
    for label in labels {
        if matches!(label, SwitchLabel::Default) {
            return true;
        }
    }
    false
}

/// The number of the first section that has the label `default`, or how many sections there are.
fn default_section(sections: &[Section]) -> usize
    ensures { sections_of (drop result sections.now) ≡ from_default (sections_of sections.now) }
{
    for at in 0..sections.len() {
        let section = &sections[at];
        if has_default(section.labels.as_slice()) {
            return at;
        }
    }
    sections.len()
}

/// The number of the first of the sections that are chosen by a value (ECMA-372, 16.2; C++, 6.4.2).
pub fn chosen(state: &mut State, value: &Value, sections: &[Section]) -> Result<usize, AllocError>
    ensures { IfOk result (λ from. (sections_of (drop from sections.now), state.new) ≡ chosen_from (sections_of sections.now) value.now (sections_of sections.now) state.old) }
{
    for at in 0..sections.len() {
        let section = &sections[at];
        if has_case(state, value, section.labels.as_slice())? {
            return Ok(at);
        }
    }
    Ok(default_section(sections))
}
