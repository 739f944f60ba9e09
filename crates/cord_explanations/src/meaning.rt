//! What the program's codes mean: sentences in which a `%` stands for the file
//! or the line that a code is about, and each `#` for the next of its numbers.

/// The bytes are no image.
fn of_bytes(code: &str) -> &'static str {
    match code {
        "I1" => "% ends too early to be an image",
        "I2" => "bytes stand behind the image in %",
        "I3" => "% is no image: it does not begin with CORDSESS",
        "I4" => "% is of a version of the format that is not known",
        "I5" => "a number in % is over its limit, or its parts are not as many as it says",
        "I6" => "a field of % is not used, and is not zero",
        "I7" => "% has a node, a function, a command, a mark or a row of a kind that is not known",
        _ => "",
    }
}

/// The first fault of an image.
fn of_images(code: &str) -> &'static str {
    match code {
        "C2" => "% was made from more or fewer sources",
        "C3" => "source # is not as long as it was when % was made",
        "C4" => "node # of % names one that is not earlier, or a source that is not there",
        "C5" => "node # of % has a length that is 0, too large, or not that of its parts",
        "C6" => "node # of % has a wrong depth, or one over 64",
        "C7" => "node # of % is not inside the pool, its source or its base",
        "C8" => "the command of revision # of % is out of range",
        "C9" => "the root of revision # of % is not there, or not as long as its command's text",
        "C10" => "revision # of % is marked as balanced, and is not",
        "C11" =>
            "revision # of % is not shown to be what its command gives: row # does not fit, or is missing",
        _ => "",
    }
}

/// No session goes on from an image that is accepted.
fn of_sessions(code: &str) -> &'static str {
    match code {
        "G1" =>
            "revision # of % has a row that compares bytes of a source: a session of its commands is made by cordkit log % SOURCE.. | cordkit apply /dev/stdin SOURCE..",
        _ => "",
    }
}

/// The line of a script, or its command, is not taken.
fn of_commands(code: &str) -> &'static str {
    match code {
        "E1" => "% names a revision that is not there",
        "E2" => "% names a source that is not there",
        "E3" => "% names a place or bytes that are not inside their text",
        "E4" => "% puts in no bytes, or changes nothing",
        "E5" => "% would be more than 1,048,576 revisions",
        "E6" => "% would make more than 16,777,216 rows",
        "E8" => "% would make a text of more than 1,048,576 pieces",
        "E9" => "% has no change, or more than 4,096",
        "E10" => "% would make more than 16,777,216 changes",
        "P" => "% is no command",
        _ => "",
    }
}

/// A text has no room.
fn of_texts(code: &str) -> &'static str {
    match code {
        "N1" => "% would make a text of 2^40 bytes or more",
        "N2" => "% would make a rope deeper than 64",
        "N3" => "% would make more nodes than there may be",
        "N4" => "% would put in more bytes than there may be",
        "N5" => "% names bytes that are not inside their source",
        "N6" => "there are more than 255 files",
        _ => "",
    }
}

/// A file is refused.
fn of_files(code: &str) -> &'static str {
    match code {
        "F1" => "the pattern has more than 4,096 bytes",
        "J1" => "% has the keys of another file or image, or something else",
        "J2" => "a session keeps its keys in %, and has not saved them",
        "J3" =>
            "% is there already: cordedit -f replaces it, and cordedit --continue % NEW begins with its last text",
        "J4" =>
            "another run has put something else in place of %, or is writing to it: it stays as it is",
        "J5" => "% is not there, or not the one that the session had",
        "J6" =>
            "% is the image itself, the file beside it that is to be the image, or a source of its session",
        "K1" => "% has more than 2,147,483,647 bytes",
        "K2" => "16,777,216 keys were taken, and none of them ended the editor",
        "S4" => "there are more than 255 files",
        "S5" => "% has more than 2^40 - 1 bytes",
        _ => "",
    }
}

/// The run was stopped, or has no answer.
fn of_runs(code: &str) -> &'static str {
    match code {
        "memory" => "there was not enough memory",
        "read" => "% could not be read to its end",
        "write" => "% could not be written",
        "no revision" => "% is accepted, and has no such revision",
        "looks" => "the check of % may take # looks at nodes, more than --at-most allows",
        _ => "",
    }
}

/// The sentence of a code, and nothing of what is none.
pub fn meaning(code: &str) -> &'static str {
    match code.as_bytes() {
        [b'I', ..] => of_bytes(code),
        [b'C', ..] => of_images(code),
        [b'E' | b'P', ..] => of_commands(code),
        [b'G', ..] => of_sessions(code),
        [b'N', ..] => of_texts(code),
        [b'F' | b'J' | b'K' | b'S', ..] => of_files(code),
        _ => of_runs(code),
    }
}
