//! Readers of token lists, and the laws by which they read a grammar.
#![tactic(auto)]

mod laws;
mod stop;

pub use laws::readers;
pub use stop::Stop;

#[cfg(test)]
mod tests {
    use super::*;
    use std::alloc::AllocError;
    use std::test::Fail;

    fn first_byte(rt: &HostRuntime, tokens: &[u8]) -> Result<u8, AllocError> {
        readers::<u8, u8, u8, u8>();
        let copy = tokens.to_vec(rt.alloc())?;
        Ok(copy.first().copied().unwrap_or(0))
    }

    fn stopped<'a>(rt: &HostRuntime, tokens: &'a [u8]) -> Result<u8, Stop<'a, u8, bool>> {
        let byte = first_byte(rt, tokens)?;
        if byte == 7 {
            return Err(Stop::At(true, tokens));
        }
        Ok(byte)
    }

    #[test]
    fn stops_before_what_is_left(rt: HostRuntime) -> Result<(), Fail> {
        assert!(rt; matches!(stopped(&rt, &[5, 7]), Ok(5)));
        assert!(rt; matches!(stopped(&rt, &[7, 5]), Err(Stop::At(true, [7, 5]))));
        Ok(())
    }
}
