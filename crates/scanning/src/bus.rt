// The functions of a device, and the devices of a bus.
ghost use Rattle.numbering.specs.Rule.{others, on_device, on_bus};
ghost use Rattle.scanning.specs.Scans.{Stays, Does};

use super::scan::Scan;
use access::Access;
use pci::Name;
use pci::fault::Fault;

impl<A: Access> Scan<'_, A> {
    // Functions 1 to 7 of a device.
    fn scan_others(&mut self, device: u8) -> Result<(), Fault>
        ensures ran { Does A.state self.old (others self.old.bus.number device self.old.bus.parent) result self.new }
        ensures stays { Stays self.old self.new }
    {
        for function in 1..8 {
            let at = Name {
                bus: self.bus.number,
                device,
                function,
            };
            self.probe(at)?;
        }
        Ok(())
    }

    fn scan_device(&mut self, device: u8) -> Result<(), Fault>
        ensures ran { Does A.state self.old (on_device self.old.bus.number self.old.bus.parent device) result self.new }
        ensures stays { Stays self.old self.new }
    {
        let at = Name {
            bus: self.bus.number,
            device,
            function: 0,
        };
        if self.probe(at)? {
            return self.scan_others(device);
        }
        Ok(())
    }

    pub(crate) fn scan_bus(&mut self) -> Result<(), Fault>
        ensures ran { Does A.state self.old (on_bus self.old.bus.number self.old.bus.parent) result self.new }
        ensures stays { Stays self.old self.new }
    {
        for device in 0..32 {
            self.scan_device(device)?;
        }
        Ok(())
    }
}
