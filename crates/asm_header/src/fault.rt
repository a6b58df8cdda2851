ghost use Rattle.std.specs.Prelude.{◌≡◌, ◌≤◌, ◌||◌, [], ◌∷◌, nat_eq, not, nat_le, length, slice_get, option_map};
ghost use Rattle.std.specs.List.{list_any, filter_map};
ghost use Rattle.micro_isa.specs.Formed.{port_of};
ghost use Rattle.asm_lines.specs.Numbers.{number_or, is_no_number};
ghost use Rattle.asm_lines.specs.Tables.{words_seen, place_of, one};
ghost use Rattle.asm_header.specs.Forms.{makes, fills, numbers_in, ring_in, port_in};
ghost use Rattle.asm_header.specs.Faults.{is_from, is_size_past, is_past_limit, is_bad_port, is_repeated, is_input, form_fault};
ghost use Rattle.asm_header.specs.Views.{seen_form, seen_header};

use crate::form::{HeaderForm, fills, makes};
use crate::header::Header;
use asm_lines::{BundleKind, has_name, is_misnamed, is_stray, number_or, place_of, word_number};
use indexmap::IndexSet;
use micro_isa::{
    Channel, MOST_CHANNELS, MOST_FILE, MOST_INITIAL_WORDS, MOST_MEMORY, MOST_PORTS, MOST_RING,
    port_of,
};

fn is_no_number(word: &[u8]) -> bool
    ensures { result ≡ is_no_number word.now }
{
    word_number(word).is_none()
}

fn has_no_number(words: &[&[u8]]) -> bool
    ensures { result ≡ list_any is_no_number (words_seen words.now) }
{
    for word in words {
        if is_no_number(word) {
            return true;
        }
    }
    false
}

fn has_bad_number(form: HeaderForm) -> bool
    ensures { result ≡ list_any is_no_number (numbers_in (seen_form form.entry)) }
{
    match form {
        HeaderForm::File { size } => is_no_number(size),
        HeaderForm::Memory { size } => is_no_number(size),
        HeaderForm::Inner { capacity, .. } => is_no_number(capacity),
        HeaderForm::PortInput { port, capacity, .. } => {
            is_no_number(port) || is_no_number(capacity)
        }
        HeaderForm::PortOutput { port, .. } => is_no_number(port),
        HeaderForm::Initial { numbers, .. } => has_no_number(numbers),
        _ => false,
    }
}

fn is_from(least: u32, most: u32, word: &[u8]) -> bool
    ensures { result ≡ is_from least most word.now }
{
    let n = number_or(word);
    least <= n && n <= most
}

fn is_size_past(header: &Header, form: HeaderForm) -> bool
    requires { header.now.words ≤ MOST_INITIAL_WORDS }
    ensures { result ≡ is_size_past (seen_header header.now) (seen_form form.entry) }
{
    match form {
        HeaderForm::File { size } => !is_from(1, MOST_FILE, size),
        HeaderForm::Memory { size } => !is_from(0, MOST_MEMORY, size),
        HeaderForm::Initial { numbers, .. } => MOST_INITIAL_WORDS < header.words + numbers.len(),
        _ => false,
    }
}

fn has_bad_ring(form: HeaderForm) -> bool
    ensures { result ≡ list_any (λ capacity. not (is_from 1 MOST_RING capacity)) (ring_in (seen_form form.entry)) }
{
    match form {
        HeaderForm::Inner { capacity, .. } => !is_from(1, MOST_RING, capacity),
        HeaderForm::PortInput { capacity, .. } => !is_from(1, MOST_RING, capacity),
        _ => false,
    }
}

fn is_one_too_many(names: &IndexSet<&[u8]>, made: Option<&[u8]>) -> bool
    ensures { result ≡ list_any (λ name. nat_le MOST_CHANNELS (length (words_seen names.now.keys))) (one (option_map (λ n. n.now) made.entry)) }
{
    match made {
        Some(_) => MOST_CHANNELS <= names.len(),
        None => false,
    }
}

fn is_past_limit(header: &Header, form: HeaderForm) -> bool
    requires { header.now.words ≤ MOST_INITIAL_WORDS }
    ensures { result ≡ is_past_limit (seen_header header.now) (seen_form form.entry) }
{
    is_size_past(header, form) || has_bad_ring(form) || is_one_too_many(&header.names, makes(form))
}

fn is_port_of(channel: &Channel, port: u32) -> bool
    ensures { result ≡ list_any (nat_eq port) (filter_map port_of (channel.now ∷ [])) }
{
    match port_of(channel) {
        Some(number) => number as u32 == port,
        None => false,
    }
}

fn is_taken(channels: &[Channel], port: u32) -> bool
    ensures { result ≡ list_any (nat_eq port) (filter_map port_of channels.now) }
{
    for channel in channels {
        if is_port_of(channel, port) {
            return true;
        }
    }
    false
}

fn is_bad_port(channels: &[Channel], port: &[u8]) -> bool
    ensures { result ≡ is_bad_port channels.now (number_or port.now) }
{
    let port = number_or(port);
    MOST_PORTS <= port as usize || is_taken(channels, port)
}

fn has_bad_port(channels: &[Channel], form: HeaderForm) -> bool
    ensures { result ≡ list_any (λ port. is_bad_port channels.now (number_or port)) (port_in (seen_form form.entry)) }
{
    match form {
        HeaderForm::PortInput { port, .. } => is_bad_port(channels, port),
        HeaderForm::PortOutput { port, .. } => is_bad_port(channels, port),
        _ => false,
    }
}

fn is_repeated<'a>(header: &Header<'a>, form: HeaderForm<'a, '_>) -> bool
    ensures { result ≡ is_repeated (seen_header header.now) (seen_form form.entry) }
{
    match form {
        HeaderForm::File { .. } => header.file.is_some(),
        HeaderForm::Memory { .. } => header.memory.is_some(),
        _ => has_name(&header.names, makes(form)),
    }
}

fn is_input(channel: Option<&Channel>) -> bool
    ensures { result ≡ is_input (option_map (λ c. c.now) channel.entry) }
{
    match channel {
        Some(Channel::Input { .. }) => true,
        _ => false,
    }
}

fn is_no_input<'a>(names: &IndexSet<&'a [u8]>, channels: &[Channel], name: Option<&'a [u8]>) -> bool
    ensures { result ≡ list_any (λ name. not (is_input (slice_get channels.now (place_of (words_seen names.now.keys) name)))) (one (option_map (λ n. n.now) name.entry)) }
{
    match name {
        Some(name) => !is_input(channels.get(place_of(names, name))),
        None => false,
    }
}

/// The first kind of fault that a line has, where `header` is what the earlier lines say.
pub fn form_fault<'a>(
    header: &Header<'a>,
    fair: bool,
    form: HeaderForm<'a, '_>,
) -> Option<BundleKind>
    requires { header.now.words ≤ MOST_INITIAL_WORDS }
    ensures { result ≡ form_fault (seen_header header.now) fair (seen_form form.entry) }
{
    if !fair {
        return Some(BundleKind::Byte);
    }
    if matches!(form, HeaderForm::Blank) {
        return None;
    }
    if matches!(form, HeaderForm::Unknown) {
        return Some(BundleKind::Directive);
    }
    if matches!(form, HeaderForm::Miscounted) {
        return Some(BundleKind::Operands);
    }
    if is_misnamed(makes(form)) || is_misnamed(fills(form)) {
        return Some(BundleKind::Name);
    }
    if has_bad_number(form) {
        return Some(BundleKind::Number);
    }
    if is_past_limit(header, form) {
        return Some(BundleKind::Limit);
    }
    if has_bad_port(header.channels.as_slice(), form) {
        return Some(BundleKind::Port);
    }
    if is_repeated(header, form) {
        return Some(BundleKind::Repeated);
    }
    if is_stray(&header.names, fills(form)) {
        return Some(BundleKind::ChannelUnknown);
    }
    if is_no_input(&header.names, header.channels.as_slice(), fills(form)) {
        return Some(BundleKind::ChannelKind);
    }
    None
}
