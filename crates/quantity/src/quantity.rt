// The quantities that a record can state.
ghost use Rattle.std.specs.Prelude.{◌≡◌};
ghost use Rattle.quantity.specs.Quantities.{quantity_number};

// Numbered from 1 in the order of the table of VIF codes.
#[derive(Clone, Copy)]
pub enum Quantity {
    Energy = 1,
    EnergyJoule,
    Volume,
    Mass,
    OnTime,
    OperatingTime,
    Power,
    PowerJoule,
    VolumeFlow,
    VolumeFlowMinute,
    VolumeFlowSecond,
    MassFlow,
    FlowTemperature,
    ReturnTemperature,
    TemperatureDifference,
    ExternalTemperature,
    Pressure,
    Date,
    DateTime,
    HeatCostUnits,
    AveragingDuration,
    ActualityDuration,
    FabricationNumber,
    Identification,
    BusAddress,
    Extension,
    ManufacturerSpecific,
}

impl From<Quantity> for u8 {
    ghost from_gives = { λ quantity number. number ≡ quantity_number quantity };

    fn from(quantity: Quantity) -> u8 {
        quantity as u8
    }
}
