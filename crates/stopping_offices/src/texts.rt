//! What an office of schema 1 is asked.

/// It is looked at, its last revision is issued, held and released, and ann hands in another.
pub const AFTER_MIGRATION: &str = concat!(
    r#"{"ask":"list","token":"t-sue","team":"blue"}
{"ask":"sheet","token":"t-sue","team":"blue","profile":"web","revision":1}
{"ask":"issue","token":"t-iss","team":"blue","profile":"web","revision":2}
{"ask":"vote","token":"t-rev","team":"blue","profile":"web","revision":2,"#,
    r#""digest":"68a92f41776a711521830f21a18af0fdeaffdd13f5ae5a0db239a6d035c49f80","vote":"approve"}
{"ask":"issue","token":"t-iss","team":"blue","profile":"web","revision":2}
{"ask":"hold","token":"t-sue","team":"blue","profile":"web"}
{"ask":"release","token":"t-sue","team":"blue","profile":"web"}
{"ask":"submit","token":"t-ann","team":"blue","profile":"web","#,
    r#""document":"{\"capabilities\":{\"ambient\":[],\"bounding\":[],\"effective\":[],\"inheritable\":[],\"permitted\":[]}}"}"#
);
