//! The request lines and the answer lines of the tests.

// An author is enrolled by the digest of her token `hello`, hands a profile in and sees it; two others don't see it.
pub const FIRST_PATH: &str =
    r#"{"ask":"enrol","token":"abc","user":"ann","team":"blue","roles":["author"],"digest":"2cf24dba5fb0a30e26e83b2ac5b9e29e1b161e5c1fa7425e73043362938b9824"}
{"ask":"submit","token":"hello","team":"blue","profile":"web","document":"{\"capabilities\":{}}"}
{"ask":"show","token":"hello","team":"blue","profile":"web","revision":1}
{"ask":"show","token":"abc","team":"blue","profile":"web","revision":1}
{"ask":"show","token":"nobody","team":"blue","profile":"web","revision":1}
"#;

pub const FIRST_ANSWERS: &str = r#"{"answer":"done"}
{"answer":"done","digest":"67d59648e3164479ed30407333c338a60764f60cd31c54ca1cd477602ac5e5d6","revision":1}
{"answer":"done","digest":"67d59648e3164479ed30407333c338a60764f60cd31c54ca1cd477602ac5e5d6","document":"{\"capabilities\":{\"ambient\":[],\"bounding\":[],\"effective\":[],\"inheritable\":[],\"permitted\":[]}}","state":"open"}
{"answer":"denied","rule":2,"word":"role-missing"}
{"answer":"denied","rule":1,"word":"caller-unknown"}
"#;

// What is answered to it after that: ann is enrolled anew, and her profile is there.
pub const SECOND_ANSWERS: &str = r#"{"answer":"done"}
{"answer":"denied","rule":5,"word":"same-as-open"}
{"answer":"done","digest":"67d59648e3164479ed30407333c338a60764f60cd31c54ca1cd477602ac5e5d6","document":"{\"capabilities\":{\"ambient\":[],\"bounding\":[],\"effective\":[],\"inheritable\":[],\"permitted\":[]}}","state":"open"}
{"answer":"denied","rule":2,"word":"role-missing"}
{"answer":"denied","rule":1,"word":"caller-unknown"}
"#;

// Its second line.
pub const SUBMIT: &str =
    r#"{"ask":"submit","token":"hello","team":"blue","profile":"web","document":"{\"capabilities\":{}}"}
"#;

pub const SUBMITTED: &str =
    r#"{"answer":"done","digest":"67d59648e3164479ed30407333c338a60764f60cd31c54ca1cd477602ac5e5d6","revision":1}
"#;

// Another author hands the profile in as its canonical text; then once more, and sees it.
pub const CANONICAL: &str =
    r#"{"ask":"submit","token":"t-ann","team":"blue","profile":"web","document":"{\"capabilities\":{\"ambient\":[],\"bounding\":[],\"effective\":[],\"inheritable\":[],\"permitted\":[]}}"}
"#;

pub const CANONICAL_AGAIN: &str =
    r#"{"ask":"submit","token":"t-ann","team":"blue","profile":"web","document":"{\"capabilities\":{\"ambient\":[],\"bounding\":[],\"effective\":[],\"inheritable\":[],\"permitted\":[]}}"}
{"ask":"show","token":"t-ann","team":"blue","profile":"web","revision":1}
"#;

pub const STANDS: &str = r#"{"answer":"denied","rule":5,"word":"same-as-open"}
{"answer":"done","digest":"67d59648e3164479ed30407333c338a60764f60cd31c54ca1cd477602ac5e5d6","document":"{\"capabilities\":{\"ambient\":[],\"bounding\":[],\"effective\":[],\"inheritable\":[],\"permitted\":[]}}","state":"open"}
"#;

// The first lines of a text, this many.
pub(crate) fn first_lines(text: &str, count: usize) -> &str {
    let mut rest = text;
    for _ in 0..count {
        rest = match rest.split_once("\n") {
            Some((_, after)) => after,
            None => "",
        };
    }
    text.strip_suffix(rest).unwrap_or(text)
}
