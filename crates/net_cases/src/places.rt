// Links.
use case_values::push_place;
use maple_base::Place;
use std::alloc::AllocError;

/// Appends the two places of each link, with commas between the links.
pub fn push_links(links: &[(Place, Place)], out: &mut String) -> Result<(), AllocError> {
    for (from, to) in links {
        push_comma(out)?;
        push_place(*from, out)?;
        out.push_str(" ")?;
        push_place(*to, out)?;
    }
    Ok(())
}

/// Appends a comma behind what stands there.
pub fn push_comma(out: &mut String) -> Result<(), AllocError> {
    if out.is_empty() {
        Ok(())
    } else {
        out.push_str(", ")
    }
}
