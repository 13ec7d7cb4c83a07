ghost use Rattle.std.specs.Prelude.{◌≡◌};
ghost use Rattle.channels.specs.Checks.{reserved_check, resting_check, running_check};

use machine::fault::ChannelFault;
use machine::record::Record;

// Check 22.
pub fn reserved(channel: &Record) -> Result<(), ChannelFault>
    ensures { result ≡ reserved_check channel.now }
{
    if channel.flags.reserved {
        Ok(())
    } else {
        Err(ChannelFault::Unreserved)
    }
}

// Checks 22 and 23.
pub fn resting(channel: &Record) -> Result<(), ChannelFault>
    ensures { result ≡ resting_check channel.now }
{
    reserved(channel)?;
    if channel.flags.running {
        return Err(ChannelFault::Running);
    }
    Ok(())
}

// Checks 22 and 26.
pub fn running(channel: &Record) -> Result<(), ChannelFault>
    ensures { result ≡ running_check channel.now }
{
    reserved(channel)?;
    if !channel.flags.running {
        return Err(ChannelFault::NotRunning);
    }
    Ok(())
}
