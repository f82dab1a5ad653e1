// The tests of a switch.
ghost use Rattle.std.specs.Prelude.{◌≡◌, ◌<◌, ◌≤◌, ◌^◌, ◌+◌, ◌++◌, OnOk};
ghost use Rattle.cc_core.specs.Leave.{has_default};
ghost use Rattle.cc_core.specs.Types.{bare};
ghost use Rattle.cc_region.specs.Lists.{sections_of};
ghost use Rattle.cc_code.specs.Regions as spec;
ghost use Rattle.cc_code.specs.Sizes as sizes;

use crate::operators::{constant, load};
use crate::sizes::{is_tested, labels_size, regions_size, test_size, tests_size};
use crate::targets::branch_if_equal;
use cc_base::LocalId;
use cc_cil::Instruction;
use cc_core::{CoreType, SwitchLabel};
use cc_region::RegionSection;
use std::alloc::AllocError;

/// A test of a label against a variable of a type; the section begins so many bytes behind the test.
fn append_test(
    code: &mut Vec<Instruction>,
    parameters: u32,
    local: LocalId,
    of: &CoreType,
    label: SwitchLabel,
    past: u32,
) -> Result<(), AllocError>
    requires { past < 2 ^ 31 }
    ensures { OnOk result (code.new.items ≡ code.old.items ++ spec.test_code parameters local (bare of.now) label past) }
{
    match label {
        SwitchLabel::Default => Ok(()),
        SwitchLabel::Case(bits) => {
            if is_tested(of, label) {
                code.push(load(parameters, local.0))?;
                code.push(constant(of, bits))?;
                code.push(branch_if_equal(past))?;
            }
            Ok(())
        }
    }
}

/// Tests of labels in order; their section begins so many bytes behind the tests.
fn append_labels(
    code: &mut Vec<Instruction>,
    parameters: u32,
    local: LocalId,
    of: &CoreType,
    labels: &[SwitchLabel],
    past: u32,
) -> Result<(), AllocError>
    requires { sizes.labels_size (bare of.now) labels.now + past < 2 ^ 31 }
    ensures { OnOk result (code.new.items ≡ code.old.items ++ spec.labels_code parameters local (bare of.now) labels.now past) }
{
    let mut left = labels_size(of, labels);
    for label in labels {
        left -= test_size(of, *label);
        append_test(code, parameters, local, of, *label, left + past)?;
    }
    Ok(())
}

/// Tests of the labels of sections in order; the first of these sections begins so many bytes behind the tests.
pub(crate) fn append_tests(
    code: &mut Vec<Instruction>,
    parameters: u32,
    local: LocalId,
    of: &CoreType,
    sections: &[RegionSection],
    past: u32,
) -> Result<(), AllocError>
    requires { sizes.tests_size (bare of.now) (sections_of sections.now) + past + sizes.sections_size (sections_of sections.now) < 2 ^ 31 }
    ensures { OnOk result (code.new.items ≡ code.old.items ++ spec.tests_code parameters local (bare of.now) (sections_of sections.now) past) }
{
    let mut left = tests_size(of, sections);
    let mut place = past;
    for section in sections {
        let labels = section.labels.as_slice();
        left -= labels_size(of, labels);
        append_labels(code, parameters, local, of, labels, left + place)?;
        place += regions_size(section.body.as_slice());
    }
    Ok(())
}

fn has_default(labels: &[SwitchLabel]) -> bool
    ensures { result ≡ has_default labels.now }
{
    for label in labels {
        if matches!(label, SwitchLabel::Default) {
            return true;
        }
    }
    false
}

/// Where the section with the label `default` begins, counted from where the first one does, or else where the last one ends.
pub(crate) fn default_place(sections: &[RegionSection]) -> u32
    requires { sizes.sections_size (sections_of sections.now) < 2 ^ 31 }
    ensures place { result ≡ spec.default_place (sections_of sections.now) }
    ensures within { result ≤ sizes.sections_size (sections_of sections.now) }
{
    let mut place = 0;
    for section in sections {
        if has_default(section.labels.as_slice()) {
            return place;
        }
        place += regions_size(section.body.as_slice());
    }
    place
}
