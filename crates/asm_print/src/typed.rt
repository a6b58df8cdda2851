//! The types of a bundle's fields bound its names and numbers, but a contract that takes the whole
//! bundle sees it without these bounds. Reading each name and number once makes them known of all.

ghost use Rattle.std.specs.Prelude.{◌≡◌, ◌<◌, ◌^◌, true};
ghost use Rattle.std.specs.List.{list_all, AllByRecursion};
ghost use Rattle.micro_isa.specs.Names.{name_test};
ghost use Rattle.asm_print.specs.Typed.{ExtraFits, NumberFits, WordsFit, IsTypedProgram, IsTyped};

use micro_isa::{Bundle, Channel, Extra, Instr, Label, Line, Name, Program, VReg, operands_of};

pub(crate) fn typed_bundle(bundle: &Bundle)
    ensures { IsTyped bundle.now }
{
    typed_names(bundle.names.as_slice());
    typed_channels(bundle.setting.channels.as_slice());
    typed_programs(bundle.programs.as_slice());
}

fn typed_name(name: &Name)
    ensures { name_test name.now ≡ true }
{
    name.bytes();
}

#[tactic(auto, using(crate::proofs::Taken::tests_more))]
fn typed_names(names: &[Name])
    ensures { list_all name_test names.now ≡ true }
{
    for name in names {
        typed_name(name);
    }
}

#[tactic(auto, using(crate::proofs::Taken::all_more))]
fn typed_channels(channels: &[Channel])
    ensures { AllByRecursion WordsFit channels.now }
{
    for channel in channels {
        typed_channel(channel);
    }
}

fn typed_channel(channel: &Channel)
    ensures { WordsFit channel.now }
{
    match channel {
        Channel::Input { words, .. } => typed_words(words.as_slice()),
        Channel::Inner { .. } | Channel::Output { .. } => {}
    }
}

#[tactic(auto, using(crate::proofs::Taken::all_from_places))]
fn typed_words(words: &[u32])
    ensures { AllByRecursion (λ n. n < 2 ^ 32) words.now }
{}

#[tactic(auto, using(crate::proofs::Taken::all_more))]
fn typed_programs(programs: &[Program])
    ensures { AllByRecursion IsTypedProgram programs.now }
{
    for program in programs {
        typed_program(program);
    }
}

fn typed_program(program: &Program)
    ensures { IsTypedProgram program.now }
{
    typed_name(&program.name);
    typed_names(program.registers.as_slice());
    typed_labels(program.labels.as_slice());
    typed_code(program.code.as_slice());
}

#[tactic(auto, using(crate::proofs::Taken::tests_more))]
fn typed_labels(labels: &[Label])
    ensures { list_all (λ l. name_test l.name) labels.now ≡ true }
{
    for label in labels {
        typed_name(&label.name);
    }
}

#[tactic(auto, using(crate::proofs::Taken::all_more))]
fn typed_code(code: &[Line])
    ensures { AllByRecursion (λ l. NumberFits l.instr) code.now }
{
    for line in code {
        typed_instr(line.instr);
    }
}

fn typed_instr(instr: Instr<VReg>)
    ensures { NumberFits instr }
{
    typed_extra(operands_of(&instr).extra);
}

fn typed_extra(extra: Extra<u32, u8>)
    ensures { ExtraFits extra }
{
    if let Extra::Number(n) = extra {
        typed_number(n);
    }
}

fn typed_number(n: u32)
    ensures { n < 2 ^ 32 }
{}
