//! Objects of more members than any that a document may have.

use crate::told::told;
use std::test::Fail;

#[test]
fn of_many_unknown_members_the_first_in_byte_order_is_told(rt: HostRuntime) -> Result<(), Fail> {
    let document =
        r#"{"k":0,"j":0,"i":0,"h":0,"g":0,"f":0,"e":0,"d":0,"c":0,"b":0,"capabilities":{}}"#;
    let told = told(rt.alloc(), document.as_bytes())?;
    assert_eq!(rt; told.as_str(), "unknown-member /b");
    Ok(())
}

#[test]
fn of_many_members_the_last_of_a_name_counts(rt: HostRuntime) -> Result<(), Fail> {
    let document =
        r#"{"capabilities":0,"z":0,"y":0,"x":0,"w":0,"v":0,"u":0,"t":0,"s":0,"capabilities":{}}"#;
    let told = told(rt.alloc(), document.as_bytes())?;
    assert_eq!(rt; told.as_str(), "unknown-member /s");
    Ok(())
}

// An object of 40 members, of which 39 are unknown.
#[test]
fn of_40_members_in_any_order_the_first_in_byte_order_is_told(rt: HostRuntime) -> Result<(), Fail> {
    let document = concat!(
        r#"{"m05":0,"m09":0,"m19":0,"m03":0,"m18":0,"m16":0,"m14":0,"m10":0,"#,
        r#""m02":0,"m01":0,"m31":0,"m11":0,"m24":0,"m27":0,"m13":0,"m20":0,"#,
        r#""m25":0,"m32":0,"m12":0,"m36":0,"capabilities":{},"m21":0,"m33":0,"m28":0,"#,
        r#""m22":0,"m06":0,"m07":0,"m17":0,"m35":0,"m38":0,"m26":0,"m29":0,"#,
        r#""m00":0,"m04":0,"m30":0,"m23":0,"m08":0,"m34":0,"m37":0,"m15":0}"#,
    );
    let told = told(rt.alloc(), document.as_bytes())?;
    assert_eq!(rt; told.as_str(), "unknown-member /m00");
    Ok(())
}
