ghost use Rattle.std.specs.Prelude.{◌≡◌, option_map};
ghost use Rattle.asm_header.specs.Forms.{file_form, memory_form, inner_form, is_port_word, port_input_form, input_form, port_output_form, output_form, words_form, directive_form, header_form, makes, fills};
ghost use Rattle.asm_header.specs.Views.{seen_form};
ghost use Rattle.asm_lines.specs.Tables.{words_seen};

/// The form of a line, with its operands as words that are not judged yet.
#[derive(Clone, Copy, Drop)]
pub enum HeaderForm<'a, 'b> {
    Blank,
    File {
        size: &'a [u8],
    },
    Memory {
        size: &'a [u8],
    },
    Inner {
        name: &'a [u8],
        capacity: &'a [u8],
    },
    Input {
        name: &'a [u8],
    },
    PortInput {
        name: &'a [u8],
        port: &'a [u8],
        capacity: &'a [u8],
    },
    Output {
        name: &'a [u8],
    },
    PortOutput {
        name: &'a [u8],
        port: &'a [u8],
    },
    Initial {
        name: &'a [u8],
        numbers: &'b [&'a [u8]],
    },
    Miscounted,
    Unknown,
}

fn file_form<'a, 'b>(operands: &'b [&'a [u8]]) -> HeaderForm<'a, 'b>
    ensures { seen_form result ≡ file_form (words_seen operands.now) }
{
    match operands {
        [size] => HeaderForm::File { size },
        _ => HeaderForm::Miscounted,
    }
}

fn memory_form<'a, 'b>(operands: &'b [&'a [u8]]) -> HeaderForm<'a, 'b>
    ensures { seen_form result ≡ memory_form (words_seen operands.now) }
{
    match operands {
        [size] => HeaderForm::Memory { size },
        _ => HeaderForm::Miscounted,
    }
}

fn inner_form<'a, 'b>(operands: &'b [&'a [u8]]) -> HeaderForm<'a, 'b>
    ensures { seen_form result ≡ inner_form (words_seen operands.now) }
{
    match operands {
        [name, capacity] => HeaderForm::Inner { name, capacity },
        _ => HeaderForm::Miscounted,
    }
}

fn is_port_word(word: &[u8]) -> bool
    ensures { result ≡ is_port_word word.now }
{
    word == b"port".as_slice()
}

fn port_input_form<'a, 'b>(
    name: &'a [u8],
    word: &'a [u8],
    port: &'a [u8],
    capacity: &'a [u8],
) -> HeaderForm<'a, 'b>
    ensures { seen_form result ≡ port_input_form name.now word.now port.now capacity.now }
{
    if is_port_word(word) {
        HeaderForm::PortInput {
            name,
            port,
            capacity,
        }
    } else {
        HeaderForm::Miscounted
    }
}

fn input_form<'a, 'b>(operands: &'b [&'a [u8]]) -> HeaderForm<'a, 'b>
    ensures { seen_form result ≡ input_form (words_seen operands.now) }
{
    match operands {
        [name] => HeaderForm::Input { name },
        [name, word, port, capacity] => port_input_form(name, word, port, capacity),
        _ => HeaderForm::Miscounted,
    }
}

fn port_output_form<'a, 'b>(name: &'a [u8], word: &'a [u8], port: &'a [u8]) -> HeaderForm<'a, 'b>
    ensures { seen_form result ≡ port_output_form name.now word.now port.now }
{
    if is_port_word(word) {
        HeaderForm::PortOutput { name, port }
    } else {
        HeaderForm::Miscounted
    }
}

fn output_form<'a, 'b>(operands: &'b [&'a [u8]]) -> HeaderForm<'a, 'b>
    ensures { seen_form result ≡ output_form (words_seen operands.now) }
{
    match operands {
        [name] => HeaderForm::Output { name },
        [name, word, port] => port_output_form(name, word, port),
        _ => HeaderForm::Miscounted,
    }
}

fn words_form<'a, 'b>(operands: &'b [&'a [u8]]) -> HeaderForm<'a, 'b>
    ensures { seen_form result ≡ words_form (words_seen operands.now) }
{
    match operands {
        [] => HeaderForm::Miscounted,
        [_] => HeaderForm::Miscounted,
        [name, numbers @ ..] => HeaderForm::Initial { name, numbers },
    }
}

fn directive_form<'a, 'b>(directive: &[u8], operands: &'b [&'a [u8]]) -> HeaderForm<'a, 'b>
    ensures { seen_form result ≡ directive_form directive.now (words_seen operands.now) }
{
    if directive == b"file".as_slice() {
        return file_form(operands);
    }
    if directive == b"memory".as_slice() {
        return memory_form(operands);
    }
    if directive == b"inner".as_slice() {
        return inner_form(operands);
    }
    if directive == b"input".as_slice() {
        return input_form(operands);
    }
    if directive == b"output".as_slice() {
        return output_form(operands);
    }
    if directive == b"words".as_slice() {
        return words_form(operands);
    }
    HeaderForm::Unknown
}

/// The form of a line of these words.
pub fn header_form<'a, 'b>(words: &'b [&'a [u8]]) -> HeaderForm<'a, 'b>
    ensures { seen_form result ≡ header_form (words_seen words.now) }
{
    match words {
        [] => HeaderForm::Blank,
        [directive, operands @ ..] => directive_form(directive, operands),
    }
}

/// The name of the channel that a line makes.
pub fn makes<'a>(form: HeaderForm<'a, '_>) -> Option<&'a [u8]>
    ensures { option_map (λ n. n.now) result ≡ makes (seen_form form.entry) }
{
    match form {
        HeaderForm::Inner { name, .. } => Some(name),
        HeaderForm::Input { name } => Some(name),
        HeaderForm::PortInput { name, .. } => Some(name),
        HeaderForm::Output { name } => Some(name),
        HeaderForm::PortOutput { name, .. } => Some(name),
        _ => None,
    }
}

/// The name of the channel that a line gives initial words.
pub fn fills<'a>(form: HeaderForm<'a, '_>) -> Option<&'a [u8]>
    ensures { option_map (λ n. n.now) result ≡ fills (seen_form form.entry) }
{
    match form {
        HeaderForm::Initial { name, .. } => Some(name),
        _ => None,
    }
}
